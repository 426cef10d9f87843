//! Which jobs are the same.
use reason_trail::Job;
use std::alloc::Global;
use std::process::Abort;
use std::test::Fail;
use worked_models::models::{FEW_CARDS, RACKS};
use worked_racks::jobs::job_with;
use worked_racks::racks::{STRONG, TOO_STRONG};

/// The model and the order of a job, whether it keeps its request, and whether any will do.
type Parts = (&'static str, &'static str, bool, bool);

const FIRST: Parts = (RACKS, TOO_STRONG, true, false);

/// Jobs that differ from the first one in one part each.
const OTHERS: [Parts; 4] = [
    (FEW_CARDS, TOO_STRONG, true, false),
    (RACKS, STRONG, true, false),
    (RACKS, TOO_STRONG, false, false),
    (RACKS, TOO_STRONG, true, true),
];

fn job_from(alloc: Global, parts: &Parts) -> Result<Job, Fail> {
    let (model, order, keep, any) = parts;
    job_with(alloc, model, order, *keep, *any)
}

/// Whether a job is that of these parts.
fn is_from(alloc: Global, job: &Job, parts: &Parts) -> Result<bool, Fail> {
    let other = job_from(alloc, parts)?;
    let same = job.same(&other);
    drop(other);
    Ok(same)
}

/// Whether a job is the same as its copy.
fn is_like_its_copy(alloc: Global, job: &Job) -> Result<bool, Fail> {
    let copy = job.copy(alloc)?;
    let same = job.same(&copy);
    drop(copy);
    Ok(same)
}

fn check_job(rt: &impl Abort, alloc: Global, job: &Job) -> Result<(), Fail> {
    for parts in &OTHERS {
        assert!(rt; !is_from(alloc, job, parts)?, "{parts:?}");
    }
    assert!(rt; is_like_its_copy(alloc, job)?);
    Ok(())
}

#[test]
fn tells_jobs_apart(rt: HostRuntime) -> Result<(), Fail> {
    let job = job_from(rt.alloc(), &FIRST)?;
    let checked = check_job(&rt, rt.alloc(), &job);
    drop(job);
    checked
}
