//! Searches of worked jobs, node by node and to the end.
ghost use Rattle.std.specs.Prelude.{◌≡◌, IfOk, OnOk, OnErr, true, false};
ghost use Rattle.worked_racks.specs.Goals.{goal_of};
ghost use Rattle.worked_racks.specs.Unmet.{FirstIsUnmet};

use crate::idle::Idle;
use crate::wanted::is_wanted;
use literal_book::{Added, Literal, Literals, Nogood, Piece};
use reason_trail::{Job, Propagate};
use seq_search::{Advance, MakeProps, Searcher};
use std::alloc::{AllocError, Global};
use std::process::Abort;
use std::test::Fail;
use type_narrowing::TypeNarrowing;
use worked_models::models::{BOXES, RACKS};
use worked_models::satisfying::answer_of;
use worked_racks::jobs::job_of;
use worked_racks::literals::RACK_MADE;
use worked_racks::racks::TOO_STRONG;
use worked_racks::reach::is_out_of_reach;

/// The most power is preferred.
const MOST_POWER: &str = "{\"format\":\"order 1\",\"criteria\":[\
    {\"name\":\"power\",\"maximise\":[\"sum\",\"cards\",\"power\"]}]}";

/// The widest box is preferred.
const WIDEST: &str = "{\"format\":\"order 1\",\"criteria\":[\
    {\"name\":\"wide\",\"maximise\":[\"attr\",\"width\"]}]}";

/// A search for all configurations of a job.
fn search_all(alloc: Global, job: &Job) -> Result<Searcher<Idle>, AllocError>
    ensures { IfOk result (λ s. s.job ≡ job.now) }
{
    let props = Idle::make(alloc, job)?;
    let piece = Piece {
        literals: Literals::new(alloc),
    };
    Searcher::start(alloc, job, piece, props)
}

fn check_first_node(rt: &impl Abort, job: &Job, search: &mut Searcher<Idle>) -> Result<(), Fail>
    requires { job.now ≡ search.old.job }
{
    assert!(rt; search.export().is_none());
    assert_eq!(rt; search.held(), 0);
    assert!(rt; search.best_so_far().is_none());
    assert_eq!(rt; search.advance(job, 1)?, Advance::More);
    Ok(())
}

fn check_first_of(rt: &impl Abort, alloc: Global, job: &Job) -> Result<(), Fail> {
    let mut search = search_all(alloc, job)?;
    let checked = check_first_node(rt, job, &mut search);
    drop(search);
    checked
}

#[test]
fn first_node_leaves_open_branches(rt: HostRuntime) -> Result<(), Fail> {
    let job = job_of(rt.alloc(), RACKS, MOST_POWER)?;
    let checked = check_first_of(&rt, rt.alloc(), &job);
    drop(job);
    checked
}

/// The boxes that are handed in, the best of them, and the best in the end.
type Handed = (&'static [&'static str], &'static str, &'static str);

const WIDTH_2: &str = "preferred\n0 Box width=2\n";

const WIDTH_3: &str = "preferred\n0 Box width=3\n";

const HANDED: [Handed; 3] = [
    (&[WIDTH_3], WIDTH_3, WIDTH_3),
    (&[WIDTH_2], WIDTH_2, WIDTH_3),
    (&[WIDTH_3, WIDTH_2], WIDTH_3, WIDTH_3),
];

/// Hands in the configuration of an answer, if it is wanted.
fn hand_in<P: Propagate + Drop>(
    alloc: Global,
    job: &Job,
    search: &mut Searcher<P>,
    lines: &str,
) -> Result<(), Fail>
    requires goal { job.now.goal ≡ goal_of job.now.order true false }
    requires same { job.now ≡ search.old.job }
    ensures { search.new.job ≡ search.old.job }
{
    let c = answer_of(alloc, job.problem(), lines)?;
    if !is_wanted(job, &c) {
        return Err(Fail::from("it is not wanted"));
    }
    search.lower(c);
    Ok(())
}

fn hand_in_each<P: Propagate + Drop>(
    alloc: Global,
    job: &Job,
    search: &mut Searcher<P>,
    answers: &[&str],
) -> Result<(), Fail>
    requires goal { job.now.goal ≡ goal_of job.now.order true false }
    requires same { job.now ≡ search.old.job }
    ensures { search.new.job ≡ search.old.job }
{
    for lines in answers {
        hand_in(alloc, job, search, lines)?;
    }
    Ok(())
}

/// Whether the best so far is the configuration of an answer.
fn is_best<P: Propagate + Drop>(
    alloc: Global,
    job: &Job,
    search: &Searcher<P>,
    lines: &str,
) -> Result<bool, Fail> {
    let want = answer_of(alloc, job.problem(), lines)?;
    Ok(search.best_so_far().is_some_and(|c| c.same(&want)))
}

fn check_handed<P: Propagate + Drop>(
    rt: &impl Abort,
    alloc: Global,
    job: &Job,
    search: &mut Searcher<P>,
    row: &Handed,
) -> Result<(), Fail>
    requires goal { job.now.goal ≡ goal_of job.now.order true false }
    requires same { job.now ≡ search.old.job }
{
    hand_in_each(alloc, job, search, row.0)?;
    assert!(rt; is_best(alloc, job, search, row.1)?, "{row:?}");
    assert_eq!(rt; search.advance(job, 100_000)?, Advance::Done, "{row:?}");
    assert!(rt; is_best(alloc, job, search, row.2)?, "{row:?}");
    Ok(())
}

fn check_handed_of(rt: &impl Abort, alloc: Global, job: &Job, row: &Handed) -> Result<(), Fail>
    requires goal { job.now.goal ≡ goal_of job.now.order true false }
{
    let mut search = search_all(alloc, job)?;
    let checked = check_handed(rt, alloc, job, &mut search, row);
    drop(search);
    checked
}

fn check_each_handed(rt: &impl Abort, alloc: Global, job: &Job) -> Result<(), Fail>
    requires goal { job.now.goal ≡ goal_of job.now.order true false }
{
    for row in &HANDED {
        check_handed_of(rt, alloc, job, row)?;
    }
    Ok(())
}

#[test]
fn keeps_the_best_that_is_handed_in(rt: HostRuntime) -> Result<(), Fail> {
    let job = job_of(rt.alloc(), BOXES, WIDEST)?;
    let checked = check_each_handed(&rt, rt.alloc(), &job);
    drop(job);
    checked
}

/// The rack with the most power that its lines carry.
const STRONGEST: &str = "preferred\n0 Rack price=50 cards:1,2,3\n1 Small price=10 power=5\n\
    2 Big price=18 power=12\n3 Big price=18 power=12\n";

const HANDED_RACK: Handed = (&[STRONGEST], STRONGEST, STRONGEST);

/// A search for all configurations of a job, narrowed by types.
fn narrowed_search(alloc: Global, job: &Job) -> Result<Searcher<TypeNarrowing>, AllocError>
    ensures { IfOk result (λ s. s.job ≡ job.now) }
{
    let props = TypeNarrowing::new(alloc, job)?;
    let piece = Piece {
        literals: Literals::new(alloc),
    };
    Searcher::start(alloc, job, piece, props)
}

fn check_rack_of(rt: &impl Abort, alloc: Global, job: &Job) -> Result<(), Fail>
    requires goal { job.now.goal ≡ goal_of job.now.order true false }
{
    let mut search = narrowed_search(alloc, job)?;
    let checked = check_handed(rt, alloc, job, &mut search, &HANDED_RACK);
    drop(search);
    checked
}

#[test]
fn keeps_the_best_rack_that_is_handed_in(rt: HostRuntime) -> Result<(), Fail> {
    let job = job_of(rt.alloc(), RACKS, MOST_POWER)?;
    let checked = check_rack_of(&rt, rt.alloc(), &job);
    drop(job);
    checked
}

/// Takes a nogood of the first request, which no configuration meets, and of literals.
#[tactic(auto, using(crate::proofs::ImportLaws::same_job))]
fn import(alloc: Global, search: &mut Searcher<Idle>, literals: &[Literal]) -> Result<Added, Fail>
    requires { FirstIsUnmet search.old.job.model search.old.job.order }
    ensures { search.new.job ≡ search.old.job }
{
    let nogood = Nogood {
        requests: 1,
        literals: Literals::from_slice(alloc, literals)?,
    };
    Ok(search.import(nogood)?)
}

fn check_imports(rt: &impl Abort, alloc: Global, search: &mut Searcher<Idle>) -> Result<(), Fail>
    requires { FirstIsUnmet search.old.job.model search.old.job.order }
{
    assert_eq!(rt; import(alloc, search, &[RACK_MADE; 33])?, Added::TooLong);
    assert_eq!(rt; search.held(), 0);
    assert_eq!(rt; import(alloc, search, &[RACK_MADE])?, Added::Added);
    assert_eq!(rt; search.held(), 1);
    assert!(rt; search.export().is_none());
    Ok(())
}

fn check_imports_of(rt: &impl Abort, alloc: Global, job: &Job) -> Result<(), Fail> {
    if !is_out_of_reach(alloc, job.problem(), job.order()) {
        return Err(Fail::from("the first request may be met"));
    }
    let mut search = search_all(alloc, job)?;
    let checked = check_imports(rt, alloc, &mut search);
    drop(search);
    checked
}

#[test]
fn imports_no_long_nogood(rt: HostRuntime) -> Result<(), Fail> {
    let job = job_of(rt.alloc(), RACKS, TOO_STRONG)?;
    let checked = check_imports_of(&rt, rt.alloc(), &job);
    drop(job);
    checked
}
