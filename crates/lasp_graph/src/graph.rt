//! The graph: declarations in order, found by their names.

ghost use Rattle.std.specs.Prelude.{◌≡◌, ◌<◌, ◌++◌, ◌∷◌, [], length, slice_get, Some, IfOk, IfSome, OnOk, OnErr};
ghost use Rattle.lasp_graph.specs.Prelude.{kind_at, variable_limit, width_at, width_of, widths, place_of, AreInputs, IsGraph, IsNext, kind_of, decl_of};

use super::decl::Decl;
use super::kind::Kind;
use indexmap::IndexMap;
use std::alloc::{AllocError, Global};
use std::marker::Model;

/// A declaration with its variable's width.
#[derive(Drop)]
struct Declared {
    decl: Decl,
    width: u8,
}

/// A graph of at most 64 variables, each named by its place. Contracts see the list of its declarations.
#[derive(Drop)]
pub struct Graph {
    decls: IndexMap<String, Declared>,
}

impl Model for Graph {
    ghost use Rattle.std.specs.Prelude.{List};
    ghost use Rattle.model_graph.specs.Graph.{Decl};
    ghost use Rattle.model_graph.specs.Coded.{coded_decls};
    ghost use Rattle.lasp_graph.specs.Kept.{decls_of, IsKept};

    ghost Value = { List Decl };

    ghost coded = { coded_decls };

    ghost view = { λ a. decls_of a.decls.entries };

    ghost invariant = { λ a. IsKept a.decls.entries };
}

impl Graph {
    /// The graph of no variables. It takes no memory.
    pub fn empty(alloc: Global) -> Graph
        ensures { result ≡ [] }
    {
        Graph {
            decls: IndexMap::new(alloc),
        }
    }

    /// The number of variables, at most 64.
    pub fn len(&self) -> u64
        ensures count { result ≡ length self.now }
        ensures graph { IsGraph self.now }
    {
        self.decls.len() as u64
    }

    /// Recalls, at no cost, that it is a graph.
    pub fn recall(&self)
        ensures { IsGraph self.now }
    {
        let _ = &self.decls;
    }

    /// The declaration of the variable with this number.
    pub fn at(&self, i: u64) -> &Decl
        requires { i < length self.now }
        ensures decl { slice_get self.now i ≡ Some (decl_of result.now) }
        ensures kind { kind_at self.now i ≡ kind_of result.now.kind }
    {
        let (_, declared) = self.decls.get_index(i as usize).unwrap();
        &declared.decl
    }

    /// The width of the variable with this number, at most 16: how many source values stand in a value of it.
    pub fn width(&self, var: u8) -> u8
        requires { var < length self.now }
        ensures { result ≡ width_at (widths self.now) var }
    {
        let (_, declared) = self.decls.get_index(var as usize).unwrap();
        declared.width
    }

    /// How wide a variable of this kind would be behind those of the graph.
    pub fn width_of(&self, kind: &Kind) -> u64
        requires { AreInputs self.now (kind_of kind.now) }
        ensures { result ≡ width_of (kind_of kind.now) (widths self.now) }
    {
        match kind {
            Kind::OrSet | Kind::GSet | Kind::Counter | Kind::MaxReg => 1,
            Kind::Union(x, y) => u64::from(self.width(*x).max(self.width(*y))),
            Kind::Product(x, y) => u64::from(self.width(*x)) + u64::from(self.width(*y)),
            Kind::Intersection(x, y) => u64::from(self.width(*x)) + u64::from(self.width(*y)),
            Kind::Map(x, _) => u64::from(self.width(*x)),
            Kind::Filter(x, _) => u64::from(self.width(*x)),
            Kind::Fold(x, _, _) => u64::from(self.width(*x)),
        }
    }

    /// The number of the variable with this name, by one look-up.
    pub fn find(&self, name: &str) -> Option<u8>
        ensures exact { result ≡ place_of name.now self.now }
        ensures within { IfSome result (λ x. x < length self.now) }
    {
        match self.decls.get_index_of(name) {
            Some(place) => Some(place as u8),
            None => None,
        }
    }

    /// The declaration is appended, which takes one copy of its name.
    pub fn push(&mut self, alloc: Global, decl: Decl) -> Result<(), AllocError>
        requires room { length self.old < variable_limit }
        requires next { IsNext self.old (decl_of decl) }
        ensures ok { OnOk result (self.new ≡ self.old ++ decl_of decl ∷ []) }
        ensures err { OnErr result (self.new ≡ self.old) }
    {
        let name = String::from_str(alloc, decl.name.as_str())?;
        let width = self.width_of(&decl.kind) as u8;
        self.decls.insert(name, Declared { decl, width })?;
        Ok(())
    }

    /// The graph with the declaration appended. This one stays as it is, so each of its declarations is copied.
    pub fn with(&self, alloc: Global, decl: &Decl) -> Result<Graph, AllocError>
        requires room { length self.now < variable_limit }
        requires next { IsNext self.now (decl_of decl.now) }
        ensures { IfOk result (λ g. g ≡ self.now ++ decl_of decl.now ∷ []) }
    {
        let mut graph = self.try_clone(alloc)?;
        graph.push(alloc, decl.try_clone()?)?;
        Ok(graph)
    }

    /// An equal graph.
    pub fn try_clone(&self, alloc: Global) -> Result<Graph, AllocError>
        ensures { IfOk result (λ g. g ≡ self.now) }
    {
        let mut graph = Graph::empty(alloc);
        for var in 0..self.len() {
            graph.push(alloc, self.at(var).try_clone()?)?;
        }
        Ok(graph)
    }
}
