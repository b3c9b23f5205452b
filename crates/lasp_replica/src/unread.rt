//! What changed in the inputs of a derived variable.

ghost use Rattle.std.specs.Prelude.{◌≡◌};
ghost use Rattle.lasp_replica.specs.Unread.{rows_in, second_rows};

use lasp_logset::RowList;

/// The rows that changed in the inputs of a derived variable since it last read them.
#[derive(Drop)]
pub struct Unread {
    /// Those of its first input.
    pub first: RowList,
    /// Those of its second input, where it has two.
    pub second: Option<RowList>,
}

impl Unread {
    /// How many rows changed, in both inputs where there are two.
    pub fn rows(&self) -> u64
        ensures { result ≡ rows_in self.now }
    {
        match &self.second {
            Some(second) => self.first.len() + second.len(),
            None => self.first.len(),
        }
    }

    /// The rows of the second input; where there is none, those of the first once more.
    pub(crate) fn second(&self) -> &RowList
        ensures { result.now ≡ second_rows self.now }
    {
        match &self.second {
            Some(second) => second,
            None => &self.first,
        }
    }
}
