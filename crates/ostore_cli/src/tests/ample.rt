//! Jobs of ample size. Beside each command that is written to a job stands the line that it means:
//! a new object has its segment and the next number there for a name, and an int is the last that
//! was set.

use super::runs::expect_run;
use std::alloc::Global;
use std::process::Abort;
use std::test::Fail;

/// A job of one client, and the report that it is to have.
#[derive(Drop)]
struct Ample {
    text: String,
    report: String,
    commits: u32,
}

impl Ample {
    /// A job without transactions, over the one type `Part` with `id` for a member.
    fn new(alloc: Global) -> Result<Ample, Fail> {
        Ample::with_schema(alloc, "type Part\nid int\n")
    }

    fn with_schema(alloc: Global, schema: &str) -> Result<Ample, Fail> {
        Ok(Ample {
            text: format!(in alloc; "{schema}job\nclient a\n")?,
            report: String::new(alloc),
            commits: 0,
        })
    }

    /// Begins the next transaction, which will commit.
    fn begin(&mut self) -> Result<(), Fail> {
        self.commits = self.commits.saturating_add(1);
        let number = self.commits;
        write!(self.text, "begin\n")?;
        write!(self.report, "a.{number} commit {number}\n")?;
        Ok(())
    }

    fn commit(&mut self) -> Result<(), Fail> {
        write!(self.text, "commit\n")?;
        Ok(())
    }

    fn new_object(&mut self, variable: u32, segment: u32, serial: u32) -> Result<(), Fail> {
        write!(self.text, "new $v{variable} Part {segment}\n")?;
        write!(self.report, "  {segment}.{serial}\n")?;
        Ok(())
    }

    fn set(&mut self, variable: u32, member: &str, value: u64) -> Result<(), Fail> {
        write!(self.text, "set $v{variable}.{member} {value}\n")?;
        write!(self.report, "  ok\n")?;
        Ok(())
    }

    fn get(&mut self, variable: u32, member: &str, value: u64) -> Result<(), Fail> {
        write!(self.text, "get $v{variable}.{member}\n")?;
        write!(self.report, "  {value}\n")?;
        Ok(())
    }

    /// Runs the job, which must print its report.
    fn expect(mut self, rt: &impl Abort, alloc: Global) -> Result<(), Fail> {
        let commits = self.commits;
        write!(self.report, "commits {commits}\n")?;
        expect_run(rt, alloc, self.text.as_str(), 0, self.report.as_str())
    }
}

#[test]
fn two_thousand_objects(rt: HostRuntime) -> Result<(), Fail> {
    let mut job = Ample::new(rt.alloc())?;
    job.begin()?;
    for i in 0..2000u32 {
        job.new_object(i % 1000, 1, i + 1)?;
        job.set(i % 1000, "id", u64::from(i))?;
    }
    // each of the thousand variables stands for the later of its two objects
    for variable in 0..1000u32 {
        job.get(variable, "id", u64::from(variable) + 1000)?;
    }
    job.commit()?;
    job.expect(&rt, rt.alloc())
}

#[test]
fn two_thousand_transactions(rt: HostRuntime) -> Result<(), Fail> {
    let mut job = Ample::new(rt.alloc())?;
    for i in 0..2000u32 {
        job.begin()?;
        job.new_object(0, 1, i + 1)?;
        job.set(0, "id", u64::from(i))?;
        job.get(0, "id", u64::from(i))?;
        job.commit()?;
    }
    job.expect(&rt, rt.alloc())
}

#[test]
fn thirty_two_members(rt: HostRuntime) -> Result<(), Fail> {
    let alloc = rt.alloc();
    let mut schema = format!(in alloc; "type Part\n")?;
    for i in 0..32u32 {
        write!(schema, "m{i} int\n")?;
    }
    let mut job = Ample::with_schema(alloc, schema.as_str())?;
    job.begin()?;
    job.new_object(0, 1, 1)?;
    for i in 0..32u32 {
        let member = format!(in alloc; "m{i}")?;
        job.get(0, member.as_str(), 0)?;
        job.set(0, member.as_str(), u64::from(i) + 100)?;
    }
    for i in 0..32u32 {
        let member = format!(in alloc; "m{i}")?;
        job.get(0, member.as_str(), u64::from(i) + 100)?;
    }
    job.commit()?;
    job.expect(&rt, alloc)
}

#[test]
fn two_types_of_thirty_two_members(rt: HostRuntime) -> Result<(), Fail> {
    let alloc = rt.alloc();
    let mut schema = String::new(alloc);
    for name in ["Part", "Box"] {
        write!(schema, "type {name}\n")?;
        for i in 0..32u32 {
            write!(schema, "m{i} int\n")?;
        }
    }
    let mut job = Ample::with_schema(alloc, schema.as_str())?;
    job.begin()?;
    job.new_object(0, 1, 1)?;
    write!(job.text, "new $v1 Box 1\n")?;
    write!(job.report, "  1.2\n")?;
    for variable in 0..2u32 {
        for i in 0..32u32 {
            let member = format!(in alloc; "m{i}")?;
            job.set(variable, member.as_str(), u64::from(100 * variable + i))?;
        }
    }
    for variable in 0..2u32 {
        for i in 0..32u32 {
            let member = format!(in alloc; "m{i}")?;
            job.get(variable, member.as_str(), u64::from(100 * variable + i))?;
        }
    }
    job.commit()?;
    job.expect(&rt, alloc)
}

#[test]
fn every_segment(rt: HostRuntime) -> Result<(), Fail> {
    let mut job = Ample::new(rt.alloc())?;
    for serial in 1..=2u32 {
        job.begin()?;
        for segment in 1..=255u32 {
            job.new_object(segment, segment, serial)?;
        }
        job.commit()?;
    }
    job.expect(&rt, rt.alloc())
}

#[test]
fn a_long_report(rt: HostRuntime) -> Result<(), Fail> {
    let mut job = Ample::new(rt.alloc())?;
    job.begin()?;
    job.new_object(0, 255, 1)?;
    job.set(0, "id", 9223372036854775807)?;
    for _ in 0..20000u32 {
        job.get(0, "id", 9223372036854775807)?;
    }
    job.commit()?;
    job.expect(&rt, rt.alloc())
}
