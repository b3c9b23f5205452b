//! Which spellings are taken, and which are left.

use super::reading::{Reading, reading_of};
use std::alloc::{AllocError, Global};
use std::test::Fail;

/// Scripts of each word, as programs write them and as people do.
const USUAL: [&str; 7] = [
    "[[\"nodes\",1],\n[\"add\",0,\"a\",-7],\n[\"remove\",0,\"a\",123456789012345678],\n[\"print\",0,\"a\"]]\n",
    "[[\"nodes\",4],\n[\"inc\",3,\"c\",4294967295],\n[\"max\",1,\"m\",-1],\n[\"insert\",2,\"g\",0],\n[\"settle\"],\n[\"sync\"]]\n",
    "[[\"nodes\",2],[\"send\",0],[\"deliver\",1,0],[\"mark\",0,\"a\",\"m\"],[\"bind\",1,\"a\",\"m\"],[\"declare\",[\"b\",\"fold\",\"a\",[\"modulo\",7],\"itself\"]]]",
    "[[\"nodes\",2],[\"read\",1,\"a\",[\"above\",\"m\"]],[\"await\",1,\"a\",[\"added\",[1,\"x\",[2,[\"y\",3]]]]]]",
    "[\n  [\"nodes\", 3],\n  [\"add\", 0, \"ads1\", [10, \"red é ☃\"]],\n  [\"await\", 0, \"hits\", [\"count\", 3]]\n]\n",
    "\t[ [ \"nodes\" , 1 ] ,\r\n [ \"settle\" ] ] \r\n",
    "[[\"\",0]]",
];

/// Spellings that are left to whoever reads all of JSON, and texts that are no JSON.
const UNUSUAL: [&str; 28] = [
    "[\"\\u0061dd\"]",
    "[\"a\\nb\"]",
    "[\"a\tb\"]",
    "[1.0]",
    "[1e2]",
    "[-0]",
    "[01]",
    "[-]",
    "[+1]",
    "[1234567890123456789]",
    "[-1234567890123456789]",
    "[null]",
    "[true]",
    "[{}]",
    "[[]]",
    "[]",
    "",
    "[1",
    "[1]]",
    "[1],",
    "[1,]",
    "[,1]",
    "[1,,2]",
    "[1 2]",
    "[\"a\"\"b\"]",
    "[\"a]",
    "[1a]",
    "7",
];

/// Whether all of the texts are read so.
fn are_all(alloc: Global, texts: &[&str], reading: Reading) -> Result<bool, AllocError> {
    for text in texts {
        if reading_of(alloc, text.as_bytes())? != reading {
            return Ok(false);
        }
    }
    Ok(true)
}

#[test]
fn usual_spellings_are_taken_and_others_are_left(rt: HostRuntime) -> Result<(), Fail> {
    assert!(rt; are_all(rt.alloc(), &USUAL, Reading::Taken)?);
    assert!(rt; are_all(rt.alloc(), &UNUSUAL, Reading::Left)?);
    assert_eq!(rt; reading_of(rt.alloc(), b"[\"\xff\"]")?, Reading::Left);
    Ok(())
}
