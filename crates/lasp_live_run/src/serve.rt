//! Duties that are all served at once, each on a thread of its own where one can be had.

ghost use Rattle.std.specs.Prelude.{◌≡◌, ◌≤◌, All, map, vec_capacity};
ghost use Rattle.std.specs.List.{AllZip};

use lasp_graph::Graph;
use lasp_threads::{Works, call_beside};
use std::alloc::Global;
use std::sync::Wait;
use std::thread::{Threads, join};

/// What may be served on a thread of its own, with tools that all share.
pub(crate) trait Duty<T>: Drop {
    // what contracts see of it
    ghost View: { Type 0 };

    ghost view: { Self → View };

    // with these tools it may be served
    ghost ready: { T → View → Type 0 };

    // and becomes this
    ghost served: { T → View → View → Type 0 };

    fn serve(&mut self, tools: &T)
        requires { ready tools.now (view self.old) }
        ensures { served tools.now (view self.old) (view self.new) };
}

/// Serves all duties at once, and gives them back in the same order. It takes no memory. Where no thread can be had for one, it is served behind another, for which one that waits for it waits for ever.
#[cycle(serve_all)]
pub(crate) fn serve_all<R: Threads, T: Sync, D: Duty<T> + Send>(
    rt: &R,
    mut duties: Vec<D>,
    tools: &T,
) -> Vec<D>
    requires { All (λ d. D.ready tools.now (D.view d)) duties.items }
    ensures served { AllZip (D.served tools.now) (map D.view duties.items) (map D.view result.items) }
    ensures room { vec_capacity duties ≤ vec_capacity result }
{
    let Some(last) = duties.pop() else {
        return duties;
    };
    let own = move || -> D
        requires { D.ready tools.now (D.view last) }
        ensures { D.served tools.entry.now (D.view last) (D.view result) }
    {
        let mut duty = last;
        duty.serve(tools);
        duty
    };
    let others = move || -> Vec<D>
        requires { All (λ d. D.ready tools.now (D.view d)) duties.items }
        ensures { AllZip (D.served tools.entry.now) (map D.view duties.items) (map D.view result.items) × (vec_capacity duties ≤ vec_capacity result) }
    { serve_all(rt, duties, tools) };
    let (last, mut duties) = join(rt, own, others);
    match duties.push(last) {
        Ok(()) => duties,
        Err(_) => unreachable!(),
    }
}

/// The same while workers work beside all of them, at the stores of so many nodes of a graph.
pub(crate) fn serve_beside<
    R: Threads + Wait,
    T: Sync,
    W: Works<T> + Send,
    U: Sync,
    D: Duty<U> + Send,
>(
    rt: &R,
    workers: Vec<W>,
    library: &T,
    alloc: Global,
    graph: &Graph,
    nodes: u8,
    duties: Vec<D>,
    tools: &U,
) -> (Vec<W>, Vec<D>)
    requires { All (λ d. D.ready tools.now (D.view d)) duties.items }
    ensures served { AllZip (D.served tools.now) (map D.view duties.items) (map D.view result.1.items) }
    ensures workers { map W.place result.0.items ≡ map W.place workers.items }
{
    call_beside(
        rt,
        workers,
        library,
        alloc,
        graph,
        nodes,
        move || -> Vec<D>
            requires { All (λ d. D.ready tools.now (D.view d)) duties.items }
            ensures { AllZip (D.served tools.entry.now) (map D.view duties.items) (map D.view result.items) }
        { serve_all(rt, duties, tools) },
    )
}
