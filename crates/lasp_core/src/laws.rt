//! What callers need of jobs and reads that others outrun, and what the entries tell of jobs and states. There is nothing to run here: each contract is a group of laws.

ghost use Rattle.std.specs.Prelude.{◌≡◌, ℕ, ◌<◌, ◌≤◌, List, length, ◌++◌, take};
ghost use Rattle.lasp_core.specs.Prelude.{arc_value, size_of, row_limit, kind_at, equation, IsDerived, FitsAll, Entry, Frame, graph, vals, State, content_of, Job, Read, Core, held_of, evaluated, IsEvaluated, IsSameJob, IsOpen, rows_of, IsStateOf, state_after, IsJobOf, IsJobNow, IsResultOf, unread_rows};
ghost use Rattle.model_functions.specs.Library as functions;

/// A job stays a job where the entries go on, and its results stay its results: who takes a job may let others add entries before its result is handed in.
pub fn jobs_stay()
    ensures job { (X : Frame) (entries more : List Entry) (job : Job) → IsJobOf X entries job → IsJobOf X (entries ++ more) job }
    ensures result { (X : Frame) (entries more : List Entry) (job : Job) (s : State) → IsDerived (graph X (take job.n entries)) job.var → IsResultOf X entries job s → IsResultOf X (entries ++ more) job s }
{}

/// A job that was taken and then evaluated is a job still, and what its process gives on its inputs is its result. Its graph is the one after the entries, so what fits that fits it; and what its process gives is what the variable's does on the present inputs.
pub fn evaluated_jobs_have_results()
    ensures job { (X : Frame) (entries : List Entry) (y : ℕ) (job done : Job) → IsJobNow X entries y job → IsSameJob job done → IsJobOf X entries done }
    ensures result { (X : Frame) (entries : List Entry) (y : ℕ) (job done : Job) → IsJobNow X entries y job → IsSameJob job done → (s : State) → IsEvaluated job s → size_of (content_of s) ≤ row_limit → IsResultOf X entries done s }
    ensures fits { (X : Frame) (entries : List Entry) (y : ℕ) (job : Job) → IsJobNow X entries y job → (lib : functions.Library) → FitsAll lib (graph X entries) → FitsAll lib (arc_value job.graph) }
    ensures present { (X : Frame) (entries : List Entry) (y : ℕ) (job : Job) → IsJobNow X entries y job → evaluated job ≡ equation (kind_at (graph X entries) y) (vals X entries) }
{}

/// A variable that is declared stays declared where the entries go on, and of its kind; one that is derived stays so. A job is of a derived variable.
pub fn variables_stay()
    ensures declared { (X : Frame) (entries more : List Entry) → length (graph X entries) ≤ length (graph X (entries ++ more)) }
    ensures kind { (X : Frame) (entries more : List Entry) (x : ℕ) → x < length (graph X entries) → kind_at (graph X (entries ++ more)) x ≡ kind_at (graph X entries) x }
    ensures derived { (X : Frame) (entries more : List Entry) (y : ℕ) → IsDerived (graph X entries) y → IsDerived (graph X (entries ++ more)) y }
    ensures job { (X : Frame) (entries : List Entry) (job : Job) → IsJobOf X entries job → IsDerived (graph X entries) job.var }
{}

/// A read that may be asked may be asked where the entries go on.
pub fn reads_stay_open()
    ensures { (X : Frame) (entries more : List Entry) (r : Read) → IsOpen X entries r → IsOpen X (entries ++ more) r }
{}

/// The entries tell how many changed rows a job has: so many changed in its variable's inputs since the variable last read them.
pub fn jobs_have_the_unread_rows()
    ensures { (X : Frame) (entries : List Entry) (y : ℕ) (job : Job) → IsJobNow X entries y job → rows_of job ≡ unread_rows X entries y }
{}

/// The entries tell the state of a variable, with its shape and a fold's number: a state that is the variable's is this one.
pub fn states_are_those_after_the_entries()
    ensures { (c : Core) (x : ℕ) (s : State) → x < length (graph c.frame c.entries) → IsStateOf c x s → held_of s ≡ state_after c.frame c.entries x }
{}
