//! The walk over outlines that gives a verdict. Its code goes down and back by a stack of its own, and marks the files that it
//! went into, so that it goes into none twice.
ghost use Rattle.std.specs.Prelude.{◌≡◌, ◌↔◌, ◌+◌, ◌<◌, ◌^◌, ◌++◌, [], ◌∷◌, length, map, replicate, slice_get, slice_set, reverse, true, Some, IfOk};
ghost use Rattle.djvu_base.specs.Name.{IsAscending};
ghost use Rattle.include_graph.specs.Verdicts.{graph_in, outline_in, in_list, walk_then, at_include, fault_at, number_of, verdict_of};
ghost use Rattle.include_graph.specs.Stack.{path_of, down, rest_of_walk};
ghost use Rattle.include_graph.specs.Steps.{Standing, StepGives, WorksBelow, Enters, frames_of, rest_from, work_left};

use crate::items::{is_known, items_known, number_of};
use crate::outline::{Outline, OutlineItem};
use crate::stack::{Frame, Mark};
use crate::verdicts::Verdict;
use djvu_base::{Fault, FaultKind, Items, Name, Place};
use std::alloc::{AllocError, Global};
use std::sync::Arc;

/// The verdict on a file. The outlines are those of the names, each at the place of its name, where it is known.
///
/// The walk takes one step for each item that it reads, and for each include a binary search among the names. It takes
/// memory in proportion to the names.
pub fn verdict(
    alloc: Global,
    names: &[Name],
    outlines: &[Option<Arc<Outline>>],
    file: u32,
) -> Result<Verdict, AllocError>
    requires ascending { IsAscending names.now }
    requires few { length names.now < 2 ^ 32 }
    requires places { length outlines.now ≡ length names.now }
    requires below { file < length names.now }
    ensures { IfOk result (λ verdict. verdict ≡ verdict_of (graph_in names.now outlines.now) file) }
{
    let mut walk = Walk::new(alloc, names.len())?;
    let mut step = walk.enter(outlines, file)?;
    'steps: while step.goes_on() {
        step = walk.step(names, outlines)?;
    }
    match step {
        Step::Unknown(file) => Ok(Verdict::NeedOutline(file)),
        Step::Faulty(fault) => Ok(Verdict::Refused(fault)),
        Step::GoesOn | Step::Over => Ok(Verdict::Files(Items::of(walk.left))),
    }
}

/// What a step of a walk answers.
#[derive(Clone, Copy, Debug, PartialEq, Eq)]
enum Step {
    /// The walk goes on.
    GoesOn,
    /// All files were left.
    Over,
    /// It comes to a file whose outline isn't known.
    Unknown(u32),
    /// It comes to a fault.
    Faulty(Fault),
}

impl Step {
    fn goes_on(self) -> bool
        ensures { result ≡ true ↔ self ≡ Step.GoesOn }
    {
        matches!(self, Step::GoesOn)
    }
}

/// Where a walk stands.
#[derive(Debug, Drop)]
struct Walk {
    /// The files that led to where it stands.
    path: Vec<Frame>,
    /// Where each file is on the walk.
    marks: Vec<Mark>,
    /// The files that were left, in that order.
    left: Vec<u32>,
}

impl Walk {
    /// A walk over so many files that wasn't anywhere yet.
    fn new(alloc: Global, count: usize) -> Result<Walk, AllocError>
        ensures path { IfOk result (λ walk. walk.path.items ≡ []) }
        ensures marks { IfOk result (λ walk. walk.marks.items ≡ replicate count Mark.Ahead) }
        ensures left { IfOk result (λ walk. walk.left.items ≡ []) }
    {
        Ok(Walk {
            path: Vec::new(alloc),
            marks: all_ahead(alloc, count)?,
            left: Vec::new(alloc),
        })
    }

    /// One step: past one item of the last file of the path, or out of that file.
    fn step(
        &mut self,
        names: &[Name],
        outlines: &[Option<Arc<Outline>>],
    ) -> Result<Step, AllocError>
        requires ascending { IsAscending names.now }
        requires few { length names.now < 2 ^ 32 }
        requires places { length outlines.now ≡ length names.now }
        requires stands { Standing (graph_in names.now outlines.now) self.old }
        ensures gives { IfOk result (λ step. StepGives (graph_in names.now outlines.now) (rest_from (graph_in names.now outlines.now) self.old) step
            self.new) }
        ensures less { IfOk result (λ step. WorksBelow (work_left (graph_in names.now outlines.now) (map outline_in outlines.now) self.old)
            (graph_in names.now outlines.now) (map outline_in outlines.now) step self.new) }
    {
        let Some(frame) = self.path.pop() else {
            return Ok(Step::Over);
        };
        let items = items_known(outlines, frame.file);
        if items.len() <= frame.passed {
            self.leave(frame.file)?;
            return Ok(Step::GoesOn);
        }
        match &items[frame.passed] {
            OutlineItem::Include { name, offset } => {
                self.path.push(Frame {
                    file: frame.file,
                    passed: frame.passed + 1,
                })?;
                self.include(names, outlines, frame.file, name, *offset)
            }
            OutlineItem::Broken { kind, offset } => Ok(Step::Faulty(fault_at(
                *kind, frame.file, *offset,
            ))),
        }
    }

    /// Past the include of a file by this name, whose `INCL` stands at this offset.
    fn include(
        &mut self,
        names: &[Name],
        outlines: &[Option<Arc<Outline>>],
        file: u32,
        name: &Name,
        offset: u32,
    ) -> Result<Step, AllocError>
        requires ascending { IsAscending names.now }
        requires few { length names.now < 2 ^ 32 }
        requires places { length outlines.now ≡ length names.now }
        requires stands { Standing (graph_in names.now outlines.now) self.old }
        ensures gives { IfOk result (λ step. StepGives (graph_in names.now outlines.now)
            (walk_then (at_include (down (graph_in names.now outlines.now) (path_of (frames_of self.old))) (path_of (frames_of self.old)) file offset
            (number_of name.now names.now) self.old.left.items)
            (rest_of_walk (graph_in names.now outlines.now) (frames_of self.old))) step self.new) }
        ensures less { IfOk result (λ step. WorksBelow (1 + work_left (graph_in names.now outlines.now) (map outline_in outlines.now) self.old)
            (graph_in names.now outlines.now) (map outline_in outlines.now) step self.new) }
    {
        let Some(target) = number_of(names, name) else {
            return Ok(Step::Faulty(fault_at(FaultKind::MissingInclude, file, offset)));
        };
        match self.mark(target) {
            Mark::Ahead => self.enter(outlines, target),
            Mark::OnPath => Ok(Step::Faulty(fault_at(FaultKind::CyclicInclude, file, offset))),
            Mark::Left => Ok(Step::GoesOn),
        }
    }

    /// Where a file is on the walk.
    fn mark(&self, file: u32) -> Mark
        requires { file < length self.now.marks.items }
        ensures { slice_get self.now.marks.items file ≡ Some result }
    {
        self.marks[file as usize]
    }

    /// Down into a file where the walk wasn't.
    fn enter(&mut self, outlines: &[Option<Arc<Outline>>], file: u32) -> Result<Step, AllocError>
        requires place { file < length outlines.now }
        requires mark { file < length self.old.marks.items }
        ensures { IfOk result (λ step. Enters (in_list (map outline_in outlines.now) file) file self.old step self.new) }
    {
        if !is_known(outlines, file) {
            return Ok(Step::Unknown(file));
        }
        self.path.push(Frame { file, passed: 0 })?;
        self.marks[file as usize] = Mark::OnPath;
        Ok(Step::GoesOn)
    }

    /// Out of a file, whose items were all passed.
    fn leave(&mut self, file: u32) -> Result<(), AllocError>
        requires { file < length self.old.marks.items }
        ensures path { self.new.path.items ≡ self.old.path.items }
        ensures marks { IfOk result (λ done. self.new.marks.items ≡ slice_set self.old.marks.items file Mark.Left) }
        ensures left { IfOk result (λ done. self.new.left.items ≡ self.old.left.items ++ file ∷ []) }
    {
        self.left.push(file)?;
        self.marks[file as usize] = Mark::Left;
        Ok(())
    }
}

/// Marks of files where the walk wasn't.
fn all_ahead(alloc: Global, count: usize) -> Result<Vec<Mark>, AllocError>
    ensures { IfOk result (λ marks. marks.items ≡ replicate count Mark.Ahead) }
{
    vec![in alloc; Mark::Ahead; count]
}

fn fault_at(kind: FaultKind, file: u32, offset: u32) -> Fault
    ensures { result ≡ fault_at kind file offset }
{
    Fault {
        kind,
        place: Place { file, offset },
    }
}
