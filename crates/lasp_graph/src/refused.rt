//! How reading is refused.

ghost use Rattle.std.specs.Prelude.{◌≡◌, ◌<◌, ◌^◌};
ghost use Rattle.lasp_graph.specs.Prelude.{why_of, refused_at};
ghost use Rattle.lasp_graph.specs.declared.refused.DeclRefused.TheVariants as decl_refused;
ghost use Rattle.lasp_graph.specs.declared.refused.GraphRefused.TheVariants as graph_refused;

use model_readings::GraphWhy;
use std::alloc::{AllocError, AllocFailed};
use thiserror::Error;

/// Why one declaration isn't read, in the order in which it is looked.
#[derive(Debug, Drop, Error)]
pub enum DeclRefused {
    /// It is of none of the forms that there are.
    #[error("Shape")]
    Shape,
    /// Its name isn't of a name's shape.
    #[error("NameShape")]
    NameShape,
    /// An earlier declaration has its name.
    #[error("NameTaken")]
    NameTaken,
    /// An input isn't the name of an earlier declaration.
    #[error("UnknownInput")]
    UnknownInput,
    /// An input isn't a set.
    #[error("WrongKind")]
    WrongKind,
    /// The library has no such function.
    #[error("UnknownFunction")]
    UnknownFunction,
    /// It would be wider than 16.
    #[error("TooWide")]
    TooWide,
    /// No memory was left.
    #[error("out of memory")]
    Memory,
}

/// Why a graph isn't read.
#[derive(Debug, Drop, Error)]
pub enum GraphRefused {
    /// The declaration with this number, counted from 0, is refused. The number is 0 where the whole is.
    #[error("graph {number} {why:?}")]
    At { number: u32, why: GraphWhy },
    /// No memory was left.
    #[error("out of memory")]
    Memory,
}

impl DeclRefused {
    /// The cause, or `None` where memory was wanting.
    pub fn why(&self) -> Option<GraphWhy>
        ensures { result ≡ why_of self.now }
    {
        match self {
            DeclRefused::Shape => Some(GraphWhy::Shape),
            DeclRefused::NameShape => Some(GraphWhy::NameShape),
            DeclRefused::NameTaken => Some(GraphWhy::NameTaken),
            DeclRefused::UnknownInput => Some(GraphWhy::UnknownInput),
            DeclRefused::WrongKind => Some(GraphWhy::WrongKind),
            DeclRefused::UnknownFunction => Some(GraphWhy::UnknownFunction),
            DeclRefused::TooWide => Some(GraphWhy::TooWide),
            DeclRefused::Memory => None,
        }
    }

    /// The refusal of the graph whose declaration with this number it is.
    pub fn at(self, number: u64) -> GraphRefused
        requires { number < 2 ^ 32 }
        ensures { result ≡ refused_at number (why_of self) }
    {
        match self.why() {
            Some(why) => GraphRefused::At {
                number: number as u32,
                why,
            },
            None => GraphRefused::Memory,
        }
    }
}

impl From<AllocError> for DeclRefused {
    ghost from_gives = { λ _ e. e ≡ decl_refused.Memory };

    fn from(_e: AllocError) -> DeclRefused {
        DeclRefused::Memory
    }
}

impl From<AllocError> for GraphRefused {
    ghost from_gives = { λ _ e. e ≡ graph_refused.Memory };

    fn from(_e: AllocError) -> GraphRefused {
        GraphRefused::Memory
    }
}

impl<T: Drop> From<AllocFailed<T>> for GraphRefused {
    ghost from_gives = { λ _ e. e ≡ graph_refused.Memory };

    fn from(_e: AllocFailed<T>) -> GraphRefused {
        GraphRefused::Memory
    }
}
