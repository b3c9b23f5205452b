//! Values of each type, handed to a call that asks that they may cross threads and be shared.

use lasp_core::{Core, ReadNo, Released};
use lasp_fns::Library;
use lasp_graph::{Graph, Inputs, States};
use lasp_replica::{Entry, Job, Replica};
use lasp_script::Script;
use lasp_state::{Op, State, Threshold};
use lasp_store::{Hand, Seated, Store};
use lasp_value::{Token, Value};
use lasp_wire::Message;
use std::test::Fail;

/// Takes a value that may cross threads and be shared.
fn may_cross<T: Send + Sync>(_value: &T) {}

/// Takes a value that may cross threads, one at a time.
fn may_move<T: Send>(_value: &T) {}

fn states_may_cross(all: &(Value, Token, State, Op, Threshold)) {
    may_cross(all)
}

fn graphs_may_cross(all: &(Graph, States, Inputs)) {
    may_cross(all)
}

fn replicas_may_cross(all: &(Message, Entry, Replica)) {
    may_cross(all)
}

fn cores_may_cross(all: &(Core, Job, ReadNo, Released)) {
    may_cross(all)
}

fn scripts_may_cross(script: &Script) {
    may_cross(script)
}

fn stores_may_cross(store: &Store) {
    may_cross(store)
}

fn hands_may_move(hand: &Hand) {
    may_move(hand)
}

fn seated_hands_may_move<R: Sync>(seated: &Seated<'_, R>) {
    may_move(seated)
}

fn libraries_may_cross(lib: &Library) {
    may_cross(lib)
}

#[test]
fn a_library_may_cross(rt: HostRuntime) -> Result<(), Fail> {
    libraries_may_cross(&Library::new(rt.alloc()));
    Ok(())
}
