//! The marks that commands made so far, found by their names.

ghost use Rattle.std.specs.Prelude.{◌≡◌, ◌<◌, ◌++◌, ◌∷◌, [], length, None, option_map, IfSome, IfOk, slice_index_or};
ghost use Rattle.model_scripts.specs.Progress.{mark_of};
ghost use Rattle.model_world.specs.Lawful.{mark_limit};
ghost use Rattle.lasp_script.specs.Marks.{names_of, marked_of};

use indexmap::IndexMap;
use std::alloc::{AllocError, Global};
use std::marker::Model;

/// At most 1,000 marks, each numbered by its place. Contracts see the list of their names, each with the number of the variable that the mark was made of.
#[derive(Drop)]
pub(crate) struct Marks {
    vars: IndexMap<String, u8>,
}

impl Model for Marks {
    ghost use Rattle.std.specs.Prelude.{◌≤◌, List, length};
    ghost use Rattle.std.specs.Coded.{coded×, coded_ℕ, coded_list};
    ghost use Rattle.model_world.specs.Lawful.{mark_limit};
    ghost use Rattle.lasp_fns.proofs.Names.{with_bytes};
    ghost use Rattle.lasp_script.specs.Marks.{Mark};

    ghost Value = { List Mark };

    ghost coded = { coded_list (coded× (coded_list coded_ℕ) coded_ℕ) };

    ghost view = { λ a. with_bytes a.vars.entries };

    ghost invariant = { λ a. length (with_bytes a.vars.entries) ≤ mark_limit };
}

impl Marks {
    /// No marks. It takes no memory yet.
    pub fn new(alloc: Global) -> Marks
        ensures { result ≡ [] }
    {
        Marks {
            vars: IndexMap::new(alloc),
        }
    }

    /// The number of marks.
    pub fn len(&self) -> u32
        ensures { result ≡ length self.now }
    {
        self.vars.len() as u32
    }

    /// The number of the mark with this name, and of the variable that it was made of, by one look-up.
    pub fn find(&self, name: &str) -> Option<(u32, u8)>
        ensures number { option_map (λ m. m.0) result ≡ mark_of name.now (names_of self.now) }
        ensures var { IfSome result (λ m. slice_index_or (marked_of self.now) m.0 0 ≡ m.1) }
    {
        match self.vars.get_full(name) {
            Some((number, _, var)) => Some((number as u32, *var)),
            None => None,
        }
    }

    /// The marks with one more behind them, of a name that none has.
    pub fn with(self, alloc: Global, name: &str, var: u8) -> Result<Marks, AllocError>
        requires new { mark_of name.now (names_of self) ≡ None }
        requires room { length self < mark_limit }
        ensures { IfOk result (λ marks. marks ≡ self ++ (name.now, var) ∷ []) }
    {
        let mut vars = self.vars;
        vars.insert(String::from_str(alloc, name)?, var)?;
        Ok(Marks { vars })
    }
}
