//! Random worlds of replicas in which messages are lost, come again and come late.

ghost use Rattle.std.specs.Prelude.{◌<◌};

use crate::beside::Beside;
use crate::dice::Dice;
use crate::mail::{Mail, Tally};
use crate::wrong::Wrong;
use lasp_value::{Text, Value};
use std::alloc::{AllocError, Global};
use std::test::Fail;

/// How many values there are.
const VALUES: u64 = 12;

/// A number, a text or a pair; another one for each n.
fn value_of(alloc: Global, n: u64) -> Result<Value, AllocError>
    requires { n < 12 }
{
    match n {
        0 => Ok(Value::Text(Text::of(alloc, "")?)),
        1 => Ok(Value::Text(Text::of(alloc, "né")?)),
        2 => pair_of(alloc, 1, 2),
        3 => pair_of(alloc, 2, 1),
        _ => Ok(Value::Int(n as i64 - 8)),
    }
}

fn pair_of(alloc: Global, first: i64, second: i64) -> Result<Value, AllocError> {
    let first = Box::new(alloc, Value::Int(first))?;
    Ok(Value::Pair(first, Box::new(alloc, Value::Int(second))?))
}

/// Some replicas, all messages that were sent, and who took which.
#[derive(Drop)]
struct World {
    nodes: u8,
    replicas: Vec<Beside>,
    sent: Vec<Beside>,
    mail: Mail,
}

impl World {
    /// A world of one to five replicas.
    fn new(alloc: Global, dice: &mut Dice) -> Result<World, Wrong> {
        let nodes = dice.roll(5) as u8 + 1;
        let mut replicas = Vec::new(alloc);
        for _ in 0..nodes {
            replicas.push(Beside::new(alloc, nodes)?)?;
        }
        Ok(World {
            nodes,
            replicas,
            sent: Vec::new(alloc),
            mail: Mail::new(alloc),
        })
    }

    /// Some replica adds, removes, sends or takes any message, and then all replicas are looked at.
    fn step(&mut self, alloc: Global, dice: &mut Dice) -> Result<(), Wrong> {
        if self.nodes == 0 {
            return Err(Wrong::NoNode);
        }
        let node = dice.roll(u64::from(self.nodes)) as u8;
        let p = usize::from(node);
        if p >= self.replicas.len() {
            return Err(Wrong::NoNode);
        }
        let value = value_of(alloc, dice.roll(VALUES))?;
        match dice.roll(8) {
            0 | 1 | 2 => self.replicas[p].add(alloc, &value, node)?,
            3 | 4 => self.replicas[p].remove(&value, node)?,
            5 => self.send(p)?,
            _ => self.deliver(p, dice)?,
        }
        self.look()
    }

    /// Whether both sorts of sets show the same at each replica.
    fn look(&self) -> Result<(), Wrong> {
        for replica in &self.replicas {
            if !replica.is_alike()? {
                return Err(Wrong::Differs);
            }
        }
        Ok(())
    }

    fn send(&mut self, p: usize) -> Result<(), Wrong> {
        let Some(replica) = self.replicas.get(p) else {
            return Err(Wrong::NoNode);
        };
        self.sent.push(replica.try_clone()?)?;
        self.mail.send(p)?;
        Ok(())
    }

    /// The replica takes any message that was ever sent.
    fn deliver(&mut self, p: usize, dice: &mut Dice) -> Result<(), Wrong> {
        if self.sent.is_empty() || p >= self.replicas.len() {
            return Ok(());
        }
        let i = dice.roll(self.sent.len() as u64) as usize;
        self.mail.take(p, i)?;
        self.replicas[p].take(&self.sent[i])
    }
}

/// A world of so many commands that follows from a seed; what became of its messages is counted.
fn play(alloc: Global, seed: u64, commands: u32, tally: &mut Tally) -> Result<(), Wrong> {
    let mut dice = Dice::new(seed);
    let mut world = World::new(alloc, &mut dice)?;
    for _ in 0..commands {
        world.step(alloc, &mut dice)?;
    }
    world.mail.count(world.replicas.len(), tally);
    Ok(())
}

fn play_all(alloc: Global, worlds: u64) -> Result<Tally, Wrong> {
    let mut tally = Tally::new();
    for seed in 0..worlds {
        play(alloc, seed, 40, &mut tally)?;
    }
    Ok(tally)
}

#[test]
fn whatever_is_lost_or_comes_again_or_late_both_sorts_of_sets_show_the_same(
    rt: HostRuntime,
) -> Result<(), Fail> {
    let tally = play_all(rt.alloc(), 1000)?;
    assert!(rt; tally.lost > 100 && tally.again > 100 && tally.late > 100);
    Ok(())
}
