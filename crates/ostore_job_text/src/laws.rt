//! Laws of the texts of jobs, which hold of every text and every job.

ghost use Rattle.std.specs.List.{AllByRecursion};
ghost use Rattle.std.specs.Prelude.{◌≡◌, ◌↔◌, ◌≤◌, ℕ, List, length, Ok, Err};
ghost use Rattle.ostore_job_text.specs.FaultsOf.{IsFaultOf};
ghost use Rattle.ostore_job_text.specs.declared.fault.JobFault.{JobFault};
ghost use Rattle.ostore_job_text.specs.declared.job.Job.{Job};
ghost use Rattle.ostore_job_text.specs.JobSpelling.{SpellsJob};
ghost use Rattle.ostore_job_text.specs.LawfulJob.{HasLawfulSettings};
ghost use Rattle.ostore_job_text.specs.ParsedJob.{parsed_job};
ghost use Rattle.ostore_job_text.specs.RunnableJobs.{CanRun, job_lines};
ghost use Rattle.ostore_job_text.specs.WithinLimits.{IsJobWithinLimits};

/// What a text spells is what it is read as.
pub fn spelled_is_read()
    ensures { (text : List ℕ) → (job : Job) → SpellsJob text job → parsed_job text ≡ Ok job }
{}

/// What a text is read as is what it spells.
pub fn read_is_spelled()
    ensures { (text : List ℕ) → (job : Job) → parsed_job text ≡ Ok job → SpellsJob text job }
{}

/// A text spells at most one job.
pub fn one_job_is_spelled()
    ensures { (text : List ℕ) → (one other : Job) →
        SpellsJob text one → SpellsJob text other → one ≡ other }
{}

/// What a text is read as is a fault exactly where the text has it, before all others that it has.
pub fn first_fault_is_read()
    ensures { (text : List ℕ) → (fault : JobFault) →
        (parsed_job text ≡ Err fault) ↔ IsFaultOf text fault }
{}

/// Each command of a job that a text spells writes within its limits, so it leaves a graph of the schema.
pub fn spelled_is_within_limits()
    ensures { (text : List ℕ) → (job : Job) → SpellsJob text job → IsJobWithinLimits job }
{}

/// Each line of a job's transactions stands on a line of the text of its own, so all lines of all clients
/// together are at most as many as the bytes of the text.
pub fn spelled_lines_are_few()
    ensures { (text : List ℕ) → (job : Job) → SpellsJob text job → job_lines job ≤ length text }
{}

/// A job that a text spells can be run.
pub fn spelled_can_run()
    ensures { (text : List ℕ) → (job : Job) → SpellsJob text job → CanRun job }
{}

/// Each option of a client of a job that a text spells is within its limits.
pub fn spelled_settings_are_lawful()
    ensures { (text : List ℕ) → (job : Job) →
        SpellsJob text job → AllByRecursion HasLawfulSettings job.clients }
{}
