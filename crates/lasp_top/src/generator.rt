//! The graph, and the script of a seed and a count.

ghost use Rattle.std.specs.Prelude.{◌≡◌, ◌<◌, ◌≤◌, ◌++◌, codes, IfOk, OnOk, string_bytes};
ghost use Rattle.std.specs.Fmt.{decimal};
ghost use Rattle.model_program.specs.Generator.{next_number, quoted, target, update, made_of, command, pause, listed, commands, load_graph, load_script};

use std::alloc::{AllocError, Global};

/// The graph: two sets with a union and an intersection, a filter, a map and a fold over these, and a counter.
pub fn load_graph() -> &'static str
    ensures { result.now ≡ load_graph }
{
    r#"[["a","orset"],["b","orset"],["c","counter"],["u","union","a","b"],["e","filter","u","even"],["i","intersection","a","b"],["n","map","u","neg"],["s","fold","u","sum","itself"]]"#
}

/// The number after this one.
fn next_number(x: u64) -> u64
    requires { x < 2147483648 }
    ensures exact { result ≡ next_number x }
    ensures small { result < 2147483648 }
{
    (x * 1_103_515_245 + 12_345) % 2_147_483_648
}

pub(crate) fn push_decimal(text: &mut String, n: u64) -> Result<(), AllocError>
    ensures { OnOk result (string_bytes text.new ≡ string_bytes text.old ++ decimal n) }
{
    text.push_str(itoa::Buffer::new().format(n))
}

fn push_quoted(text: &mut String, word: &str) -> Result<(), AllocError>
    ensures { OnOk result (string_bytes text.new ≡ string_bytes text.old ++ quoted word.now) }
{
    text.push('"')?;
    text.push_str(word)?;
    text.push_str("\",")
}

/// Appends the beginning of an update, up to what it brings.
fn push_target(text: &mut String, word: &str, p: u64, name: &str) -> Result<(), AllocError>
    ensures { OnOk result (string_bytes text.new ≡ string_bytes text.old ++ target word.now p name.now) }
{
    text.push('[')?;
    push_quoted(text, word)?;
    push_decimal(text, p)?;
    text.push(',')?;
    push_quoted(text, name)
}

/// Appends an update of a variable at node p.
fn push_update(text: &mut String, word: &str, p: u64, name: &str, v: u64) -> Result<(), AllocError>
    ensures { OnOk result (string_bytes text.new ≡ string_bytes text.old ++ update word.now p name.now v) }
{
    push_target(text, word, p, name)?;
    push_decimal(text, v)?;
    text.push(']')
}

/// Appends one of eight commands.
fn push_choice(text: &mut String, choice: u64, p: u64, v: u64) -> Result<(), AllocError>
    requires { v < 1024 }
    ensures { OnOk result (string_bytes text.new ≡ string_bytes text.old ++ made_of choice p v) }
{
    match choice {
        0 | 1 => push_update(text, "add", p, "a", v),
        2 | 3 => push_update(text, "add", p, "b", v),
        4 => push_update(text, "remove", p, "a", v),
        5 => push_update(text, "remove", p, "b", v),
        _ => push_update(text, "inc", p, "c", v + 1),
    }
}

/// Appends the command that the upper half of a number stands for.
fn push_command(text: &mut String, drawn: u64) -> Result<(), AllocError>
    requires { drawn < 32768 }
    ensures { OnOk result (string_bytes text.new ≡ string_bytes text.old ++ command drawn) }
{
    push_choice(text, drawn / 4 % 8, drawn % 4, drawn / 32)
}

/// Appends what stands behind the command with this number.
fn push_pause(text: &mut String, j: u64) -> Result<(), AllocError>
    ensures { OnOk result (string_bytes text.new ≡ string_bytes text.old ++ pause j) }
{
    if j % 2000 == 0 {
        text.push_str(",[\"sync\"],[\"settle\"]")
    } else {
        Ok(())
    }
}

/// Appends the command of number x, the jth of all, behind a comma, and what follows it.
fn push_listed(text: &mut String, x: u64, j: u64) -> Result<(), AllocError>
    requires { x < 2147483648 }
    ensures { OnOk result (string_bytes text.new ≡ string_bytes text.old ++ listed x j) }
{
    text.push(',')?;
    push_command(text, x / 65_536)?;
    push_pause(text, j)
}

/// Appends so many commands.
fn push_commands(text: &mut String, seed: u32, count: u32) -> Result<(), AllocError>
    requires { seed < 2147483648 }
    ensures { OnOk result (string_bytes text.new ≡ string_bytes text.old ++ commands seed count) }
{
    let mut x = u64::from(seed);
    for j in 0..count {
        x = next_number(x);
        push_listed(text, x, u64::from(j) + 1)?;
    }
    Ok(())
}

/// The script of a seed and a count: so many updates of two sets and a counter at four nodes, which hear of each other and settle behind each 2,000th, and hear of each other at the end. It costs some 20 bytes a command.
pub fn load_script(alloc: Global, seed: u32, count: u32) -> Result<Vec<u8>, AllocError>
    requires { seed < 2147483648 }
    ensures { IfOk result (λ bytes. bytes.items ≡ load_script seed count) }
{
    let mut text = String::new(alloc);
    text.push_str("[[\"nodes\",4]")?;
    push_commands(&mut text, seed, count)?;
    text.push_str(",[\"sync\"]]")?;
    Ok(text.into_bytes())
}
