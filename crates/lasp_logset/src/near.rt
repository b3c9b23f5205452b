//! Look-ups that go along with a log: its next row mostly stands right behind the one that was found last.

ghost use Rattle.std.specs.Prelude.{◌≡◌, nat_lt};
ghost use Rattle.model_sets.specs.Rows.{level, mark};

use super::name::Name;
use indexmap::IndexMap;

/// The place behind the row that was found last. It may be any number: what stands there is tested.
#[derive(Drop)]
pub(crate) struct Hint {
    place: usize,
}

impl Hint {
    pub(crate) fn new() -> Hint {
        Hint { place: 0 }
    }
}

/// 0 where no row has the key, 2 where it is dead, else 1. It costs a comparison where the row stands right behind the one before, else a look-up.
#[tactic(auto, using(crate::proofs::KeptLaws::levels))]
pub(crate) fn level_near(rows: &IndexMap<Name, bool>, hint: &mut Hint, name: &Name) -> u8
    ensures { result ≡ mark rows.now.entries name.now.0 name.now.1 }
{
    let _count = rows.len();
    if let Some((known, dead)) = rows.get_index(hint.place) {
        if *known == *name {
            hint.place = hint.place.saturating_add(1);
            return level_of(*dead);
        }
    }
    match rows.get_full(name) {
        Some((place, _, dead)) => {
            hint.place = place.saturating_add(1);
            level_of(*dead)
        }
        None => 0,
    }
}

/// Whether what is known of a key is less than a row tells.
pub(crate) fn is_less(known: u8, dead: bool) -> bool
    ensures { result ≡ nat_lt known (level dead) }
{
    known < level_of(dead)
}

/// 2 for a dead row, else 1.
fn level_of(dead: bool) -> u8
    ensures { result ≡ level dead }
{
    if dead { 2 } else { 1 }
}

/// Whether a row of this key tells more than the table. It costs as `level_near`.
pub(crate) fn raises_near(
    rows: &IndexMap<Name, bool>,
    hint: &mut Hint,
    name: &Name,
    dead: bool,
) -> bool
    ensures { result ≡ nat_lt (mark rows.now.entries name.now.0 name.now.1) (level dead) }
{
    let known = level_near(rows, hint, name);
    is_less(known, dead)
}
