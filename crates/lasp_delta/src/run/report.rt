//! What is written of a run by deltas: the report, and how it travelled.

ghost use Rattle.std.specs.Prelude.{◌≡◌, ◌++◌, ◌∷◌, [], ℕ, OnOk, IfOk, codes, map};
ghost use Rattle.std.specs.Fmt.{decimal};
ghost use Rattle.model_world.specs.Line.{line};
ghost use Rattle.model_deltas.specs.Gossip.{delta_size, gossip_output};
ghost use Rattle.lasp_drive.specs.Node.{AreSettled};
ghost use Rattle.lasp_drive.specs.Driver.{IsReady};
ghost use Rattle.lasp_delta.specs.Seen.{delta_seen, gossip_of};

use crate::run::deltas::DeltaRun;
use crate::run::letter::Letter;
use lasp_drive::Node;
use std::alloc::{AllocError, Global};

/// The bytes of all deltas. That there are too many to be counted is want of memory, since they are all kept.
fn size_of(letters: &[Letter]) -> Result<u64, AllocError>
    ensures { IfOk result (λ size. size ≡ delta_size letters.now) }
{
    let mut size: u64 = 0;
    for letter in letters {
        match size.checked_add(letter.len()) {
            Some(more) => size = more,
            None => return Err(AllocError),
        }
    }
    Ok(size)
}

/// Appends a number after a space.
fn push_number(text: &mut Vec<u8>, n: u64) -> Result<(), AllocError>
    ensures { OnOk result (text.new.items ≡ text.old.items ++ 32 ∷ decimal n) }
{
    text.push(b' ')?;
    text.extend_from_slice(itoa::Buffer::new().format(n).as_bytes())
}

/// Appends the line of the deltas.
fn push_line(text: &mut Vec<u8>, deliveries: u64, gaps: u64, size: u64) -> Result<(), AllocError>
    ensures { OnOk result (text.new.items ≡ text.old.items ++ line (codes "delta" ∷ decimal deliveries ∷ decimal gaps ∷ decimal size ∷ [])) }
{
    text.extend_from_slice(b"delta")?;
    push_number(text, deliveries)?;
    push_number(text, gaps)?;
    push_number(text, size)?;
    text.push(b'\n')?;
    Ok(())
}

impl<N: Node> DeltaRun<N> {
    /// The report of the run, and `delta DELIVERIES GAPS BYTES` behind it.
    pub(crate) fn report(&mut self, alloc: Global) -> Result<Vec<u8>, AllocError>
        requires ready { (c : ℕ) × IsReady N.view N.read c self.old.driver }
        requires settled { AreSettled (map N.view self.old.driver.nodes.items) }
        ensures { IfOk result (λ text. text.items ≡ gossip_output (gossip_of (delta_seen N.view N.read self.old))) }
    {
        let size = size_of(self.letters.as_slice())?;
        let mut text = self.driver.report(alloc)?;
        push_line(&mut text, self.deliveries, self.gaps, size)?;
        Ok(text)
    }
}
