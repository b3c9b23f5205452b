//! Lists of calls, each with what they come to.

use crate::table::told;
use std::test::Fail;

const MAPPED: &str = r#"[["a","orset"],["m","map","a","abs"]]"#;

const REFUSED: &str = "settled -> y settled at 0
add 2 1 -> UnknownVar
inc 255 1 -> UnknownVar
add 1 1 -> NotASource
inc 1 1 -> NotASource
inc 0 1 -> WrongOp
counts -> 0 0
add 0 1 -> ok
settled -> n variable 1 has taken in version 0 of variable 0, which is at 1
";

#[test]
fn an_update_is_refused_by_its_variable_and_then_by_its_operation(
    rt: HostRuntime,
) -> Result<(), Fail> {
    assert_eq!(rt; told(rt.alloc(), MAPPED, REFUSED)?.as_str(), REFUSED);
    Ok(())
}

const KINDS: &str = r#"[["a","orset"],["g","gset"],["c","counter"],["x","maxreg"]]"#;

const TAKEN: &str = "add 0 3 -> ok
remove 0 3 -> ok
insert 0 -3 -> WrongOp
inc 0 3 -> WrongOp
max 0 -3 -> WrongOp
join 0 3 -> ok
add 1 3 -> WrongOp
remove 1 3 -> WrongOp
insert 1 -3 -> ok
inc 1 3 -> WrongOp
max 1 -3 -> WrongOp
join 1 3 -> WrongOp
add 2 3 -> WrongOp
remove 2 3 -> WrongOp
insert 2 -3 -> WrongOp
inc 2 3 -> ok
max 2 -3 -> WrongOp
join 2 3 -> WrongOp
add 3 3 -> WrongOp
remove 3 3 -> WrongOp
insert 3 -3 -> WrongOp
inc 3 3 -> WrongOp
max 3 -3 -> ok
join 3 3 -> WrongOp
states -> [3] 2; [-3] 1; 3 0; -3 0;
entries -> 0: add 0 3; 0: remove 0 3; 0: join 0 [3]; 0: insert 1 -3; 0: inc 2 3; 0: max 3 -3;
";

#[test]
fn each_source_takes_the_operations_of_its_kind(rt: HostRuntime) -> Result<(), Fail> {
    assert_eq!(rt; told(rt.alloc(), KINDS, TAKEN)?.as_str(), TAKEN);
    Ok(())
}

const LATE: &str = "add 0 1 -> ok
take 1 -> 1, 1 gained by 1
add 0 -1 -> ok
take 1 -> 1, 2 gained by 2
end 1 -> ok
end 0 -> ok
entries -> 0: add 0 1; 0: add 0 -1; 2: binds 1 at 2; 2: binds 1 at 1;
states -> [-1,1] 2; [1] 2;
settled -> y settled at 4
";

#[test]
fn a_result_that_comes_late_stands_in_the_journal_and_changes_nothing(
    rt: HostRuntime,
) -> Result<(), Fail> {
    assert_eq!(rt; told(rt.alloc(), MAPPED, LATE)?.as_str(), LATE);
    Ok(())
}

const BROUGHT_UP: &str = "add 0 -1 -> ok
settle 1 -> ok
add 0 2 -> ok
settle 1 -> ok
take 1 -> 1, 0 gained by 0
back 0
remove 0 2 -> ok
add 0 1 -> ok
take 1 -> 1, 2 gained by 2
end 0 -> ok
add 0 3 -> ok
settle 1 -> ok
add 0 4 -> ok
take 1 -> 1, 1 gained by 1
remove 0 -1 -> ok
settle 1 -> ok
end 0 -> ok
add 0 5 -> ok
take 1 -> 1, 1 gained by 1
end 0 -> ok
states -> [1,3,4,5] 6; [1,3,4,5] 6;
entries -> 0: add 0 -1; 4: binds 1 at 1; 0: add 0 2; 4: binds 1 at 3; 0: remove 0 2; 0: add 0 1; 2: binds 1 at 6; 0: add 0 3; 4: binds 1 at 8; 0: add 0 4; 0: remove 0 -1; 4: binds 1 at 11; 2: binds 1 at 10; 0: add 0 5; 2: binds 1 at 14;
settled -> y settled at 15
settle 0 -> none
";

#[test]
fn a_variable_may_be_brought_up_in_place_between_its_jobs(rt: HostRuntime) -> Result<(), Fail> {
    assert_eq!(rt; told(rt.alloc(), MAPPED, BROUGHT_UP)?.as_str(), BROUGHT_UP);
    Ok(())
}

const UNITED: &str = r#"[["a","orset"],["b","orset"],["u","union","a","b"],["m","map","u","abs"]]"#;

const FOLLOWED: &str = "add 1 7 -> ok
settled -> ny variable 2 has taken in version 0 of variable 1, which is at 1
add 0 7 -> ok
settled -> ny variable 2 has taken in version 0 of variable 0, which is at 1
work -> ok
settled -> yn variable 3 has taken in version 0 of variable 2, which is at 1
work -> ok
remove 0 7 -> ok
add 0 3 -> ok
settled -> ny variable 2 has taken in version 1 of variable 0, which is at 3
next -> 2, 2 gained by 2
end 0 -> ok
states -> [3] 2; [7] 1; [3,7] 3; [7] 2;
";

#[test]
fn a_variable_follows_the_changed_rows_of_its_inputs(rt: HostRuntime) -> Result<(), Fail> {
    assert_eq!(rt; told(rt.alloc(), UNITED, FOLLOWED)?.as_str(), FOLLOWED);
    Ok(())
}

const TWO: &str = r#"[["a","orset"],["m","map","a","abs"],["e","filter","a","even"]]"#;

const NEXT: &str = "next -> none
add 0 2 -> ok
next -> 1, 1 gained by 1
back 0
next -> 1, 1 gained by 1
next -> 2, 1 gained by 1
back 1
work -> ok
entries -> 0: add 0 2; 0: binds 2 at 1;
settled -> ny variable 1 has taken in version 0 of variable 0, which is at 1
next -> 1, 1 gained by 1
end 1 -> ok
next -> none
settled -> yy settled at 3
";

#[test]
fn the_next_job_is_of_the_least_variable_that_is_neither_clean_nor_busy_or_else_not_clean(
    rt: HostRuntime,
) -> Result<(), Fail> {
    assert_eq!(rt; told(rt.alloc(), TWO, NEXT)?.as_str(), NEXT);
    Ok(())
}

const MIXED: &str =
    r#"[["a","orset"],["u","union","a","a"],["c","counter"],["m","map","u","abs"],["b","orset"]]"#;

const TWICE: &str = "add 0 -4 -> ok
inc 2 9 -> ok
there add 0 -4
there inc 2 9
there add 4 5
message -> a [-4] 1; c 9 0; b [5] 1; 0 3
send -> 0, 102 bytes
there remove 0 -4
send -> 1, 204 bytes
deliver 1 -> ok
deliver 0 -> ok
deliver 1 -> ok
counts -> 2 4
work -> ok
work -> ok
states -> [-4] 2; [-4] 2; 18 0; [4] 2; [5] 1;
";

#[test]
fn messages_that_come_late_and_twice_change_nothing(rt: HostRuntime) -> Result<(), Fail> {
    assert_eq!(rt; told(rt.alloc(), MIXED, TWICE)?.as_str(), TWICE);
    Ok(())
}

const SET: &str = r#"[["a","orset"]]"#;

const DECLARED: &str = "there add 0 1
send -> 0, 53 bytes
there declare 0
send -> 1, 113 bytes
deliver 1 -> of another graph: WrongGraph
declare 0
declare 1
add 1 2 -> ok
deliver 0 -> ok
deliver 1 -> ok
work -> ok
stray -> 2, 143 bytes
deliver 2 -> of another graph: WrongGraph
states -> [1] 1; [2] 1; [1,2] 2;
entries -> 3: declares b; 3: declares u; 0: add 1 2; 1: delivers 0; 1: delivers 1; 0: binds 2 at 5;
";

#[test]
fn a_message_from_before_a_declaration_is_joined_in_and_one_from_behind_it_waits(
    rt: HostRuntime,
) -> Result<(), Fail> {
    assert_eq!(rt; told(rt.alloc(), SET, DECLARED)?.as_str(), DECLARED);
    Ok(())
}

const COUNTED: &str = r#"[["c","counter"]]"#;

const MET: &str = "count 0 5 -> 0
inc 0 3 -> ok
ask 0 -> waits
inc 0 4 -> ok 0
ask 0 -> 7
inc 0 1 -> ok
ask 0 -> 8
count 0 13 -> 1
count 0 11 -> 2
count 0 8 -> 3
count 0 17 -> 4
more 0 -> 5
added 0 4 -> unsuited
count 0 14 -> 6
count 0 18 -> 7
reads -> 1 of 0; 2 of 0; 4 of 0; 5 of 0; 6 of 0; 7 of 0;
inc 0 5 -> ok 1 2 5
close 4
close 4
reads -> 6 of 0; 7 of 0;
inc 0 5 -> ok 6 7
";

#[test]
fn a_read_is_released_once_in_the_order_of_opening_unless_it_was_closed(
    rt: HostRuntime,
) -> Result<(), Fail> {
    assert_eq!(rt; told(rt.alloc(), COUNTED, MET)?.as_str(), MET);
    Ok(())
}

const RELEASED: &str = "added 0 -1 -> 0
added 1 1 -> 1
removed 1 1 -> 2
there add 0 -1
send -> 0, 53 bytes
deliver 0 -> ok 0
work -> ok 1
remove 0 -1 -> ok
work -> ok 2
reads
";

#[test]
fn deliveries_and_results_release_reads(rt: HostRuntime) -> Result<(), Fail> {
    assert_eq!(rt; told(rt.alloc(), MAPPED, RELEASED)?.as_str(), RELEASED);
    Ok(())
}

const COST: &str = "fill 0 100
work -> ok
cost -> 100 by rows, 100 by base, 100 owed
add 0 -51 -> ok
work -> ok
cost -> 101 by rows, 101 by base, 101 owed
remove 0 -51 -> ok
work -> ok
cost -> 102 by rows, 102 by base, 102 owed
work -> none
cost -> 102 by rows, 102 by base, 102 owed
";

#[test]
fn a_settled_variable_costs_a_call_for_each_changed_row(rt: HostRuntime) -> Result<(), Fail> {
    assert_eq!(rt; told(rt.alloc(), MAPPED, COST)?.as_str(), COST);
    Ok(())
}

const FOLDED: &str =
    r#"[["a","orset"],["u","union","a","a"],["e","filter","u","even"],["s","fold","u","sum","itself"]]"#;

const OWED: &str = "fill 0 100
work -> ok
work -> ok
work -> ok
cost -> 200 by rows, 200 by base, 400 owed
add 0 200 -> ok
work -> ok
work -> ok
work -> ok
cost -> 202 by rows, 202 by base, 404 owed
remove 0 200 -> ok
work -> ok
work -> ok
work -> ok
cost -> 204 by rows, 204 by base, 408 owed
work -> none
";

#[test]
fn what_is_owed_bounds_the_calls(rt: HostRuntime) -> Result<(), Fail> {
    assert_eq!(rt; told(rt.alloc(), FOLDED, OWED)?.as_str(), OWED);
    Ok(())
}

const THREE: &str = r#"[["a","orset"],["b","orset"],["c","counter"]]"#;

const FULL: &str = "fill 1 65535
add 1 -1 -> ok
add 1 -2 -> TooManyRows
remove 1 7 -> ok
add 0 -1 -> ok
tick 2 34462
counts -> 100000 0
inc 2 1 -> UpdatesFull
add 2 1 -> WrongOp
";

#[test]
fn a_set_has_room_for_65_536_rows_and_a_replica_does_100_000_updates(
    rt: HostRuntime,
) -> Result<(), Fail> {
    assert_eq!(rt; told(rt.alloc(), THREE, FULL)?.as_str(), FULL);
    Ok(())
}

const CROWDED: &str = "add 0 5 -> ok
fill 1 40000
there add 0 5
there fill 1 40000
send -> 0, 920079 bytes
deliver 0 -> TooManyRows(1)
counts -> 40001 0
";

#[test]
fn a_message_that_makes_a_variable_too_large_changes_none(rt: HostRuntime) -> Result<(), Fail> {
    assert_eq!(rt; told(rt.alloc(), THREE, CROWDED)?.as_str(), CROWDED);
    Ok(())
}
