//! Lists of values, tokens of two and names. How values are read, printed and put in order the cases of the program tell.

use lasp_value::*;
use std::test::Fail;

#[test]
fn a_list_keeps_values_as_large_as_their_parts_together(rt: HostRuntime) -> Result<(), Fail> {
    let mut values = Values::new(rt.alloc());
    values.push(Value::Int(7))?;
    values.push(Value::Text(Text::of(rt.alloc(), "né")?))?;
    assert!(rt; values.len() == 2 && *values.at(0) == Value::Int(7));
    assert!(rt; values.at(1).leaves() == 1 && values.at(1).text_bytes() == 3);
    assert!(rt; print_value(rt.alloc(), values.at(1))?.as_str() == "\"né\"");
    Ok(())
}

#[test]
fn a_pair_of_tokens_stands_behind_each_base_token(rt: HostRuntime) -> Result<(), Fail> {
    let first = Box::new(rt.alloc(), Token::Base(0, 1))?;
    let pair = Token::Both(first, Box::new(rt.alloc(), Token::Base(0, 2))?);
    assert!(rt; pair.width() == 2 && pair == pair.try_clone(rt.alloc())?);
    assert!(rt; Token::Base(7, 100_000) < pair && Token::Base(0, 9) < Token::Base(1, 1));
    Ok(())
}

#[test]
fn a_name_is_a_small_letter_and_then_letters_digits_and_underscores(
    rt: HostRuntime,
) -> Result<(), Fail> {
    assert!(rt; Name::of(rt.alloc(), "shown_2")?.is_some());
    assert!(rt; Name::of(rt.alloc(), "2a")?.is_none());
    Ok(())
}
