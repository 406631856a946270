//! Steps that read numbers and bits, and what follows them.
ghost use Rattle.std.specs.Prelude.{◌≡◌, ◌<◌, ◌≤ℤ◌, ◌&&◌, pos, [], IfOk};
ghost use Rattle.jb2_numbers.specs.Reader.{AreBounds};
ghost use Rattle.jb2_records.specs.declared.steps.Step.TheVariants as step;
ghost use Rattle.jb2_records.specs.Reading.{Input, is_require_type};
ghost use Rattle.jb2_records.specs.Steps.{low_of, behind, from_number, from_kind};
ghost use Rattle.jb2_records.specs.Machine.{IsPictured, FieldFits, high_at, Fits, ResultFits, Stays, Holds, Moves, halt_of, first_field, IsLater, IsBelow, field_rank, number_rank, rank_of, measure_of};

use crate::checks::unsigned;
use crate::frames::Steps;
use crate::machine::{Halt, Machine};
use crate::steps::{Field, Mark, Reference, Step, Use};
use crate::stops::Stop;
use crate::types::RecordType;
use jb2_numbers::NumberReader;

/// The greatest number without a sign.
const MOST: i32 = 262_142;

impl Machine {
    /// Takes a step.
    pub(crate) fn step(&mut self, at: Step) -> Result<Step, Halt>
        requires { Fits at self.old.library self.old.picture }
        ensures fits { ResultFits result self.new.library self.new.picture }
        ensures shrinks { IfOk result (λ next. measure_of next self.new.coder < measure_of at self.old.coder) }
        ensures later { IsLater self.old self.new }
        ensures moves { (input : Input) → Holds input at self.old → Moves input result self.new }
    {
        match at {
            Step::Number(field, reader) => self.number(field, reader),
            Step::Flag(width, height) => self.flag(width, height),
            Step::Row(mark) => self.row(mark),
            Step::Own(kept, width, height) => self.own(kept, width, height),
            Step::Direct(kept, reader) => self.direct(kept, reader),
            Step::Beside(kept, number, width, height) => self.beside(kept, number, width, height),
            Step::Refined(kept, number, reader) => self.refined(kept, number, reader),
            Step::Shape(made, kept, shape) => self.shape(made, kept, shape),
            Step::Start(width, height, flag) => self.start(width, height, flag),
            Step::Keep(made, shape) => self.keep(made, shape),
            Step::Place(mark, steps) => self.place(mark, steps),
        }
    }

    /// Reads a number, and goes on behind it.
    fn number(&mut self, field: Field, mut reader: NumberReader) -> Result<Step, Halt>
        requires { Fits (step.Number field reader) self.old.library self.old.picture }
        ensures fits { ResultFits result self.new.library self.new.picture }
        ensures shrinks { IfOk result (λ next. measure_of next self.new.coder < measure_of (step.Number field reader) self.old.coder) }
        ensures later { IsLater self.old self.new }
        ensures moves { (input : Input) → Holds input (step.Number field reader) self.old → Moves input result self.new }
    {
        match self.coder.number(&mut reader) {
            Ok(number) => self.read(field, number),
            Err(stop) => Err(halted(stop, Step::Number(field, reader))),
        }
    }

    /// Goes on behind a number.
    fn read(&mut self, field: Field, number: i32) -> Result<Step, Halt>
        requires pictured { IsPictured self.old.library self.old.picture }
        requires fits { FieldFits field self.old.library self.old.picture }
        requires low { low_of field ≤ℤ number }
        requires high { number ≤ℤ high_at field self.old.library self.old.picture }
        ensures fits { ResultFits result self.new.library self.new.picture }
        ensures below { IsBelow (field_rank field) result }
        ensures later { IsLater self.old self.new }
        ensures moves { (input : Input) → Stays input (λ later before text at. behind later before text field number at) self.old →
            Moves input result self.new }
    {
        match field {
            Field::Kind => self.kind(number),
            Field::StartWidth => Ok(self.ask(Field::StartHeight(number))),
            Field::StartHeight(width) => Ok(Step::Flag(width, number)),
            Field::OwnWidth(kept) => Ok(self.ask(Field::OwnHeight(kept, number))),
            Field::OwnHeight(kept, width) => self.own_sizes(kept, width, number),
            Field::Match(goal) => Ok(self.matched(goal, unsigned(i64::from(number)))),
            Field::BesideWidth(kept, matched) => {
                Ok(self.ask(Field::BesideHeight(kept, matched, number)))
            }
            Field::BesideHeight(kept, matched, wider) => {
                self.beside_sizes(kept, matched, wider, number)
            }
            Field::Dx(mark, is_new) => Ok(self.ask(Field::Dy(mark, is_new, number))),
            Field::Dy(mark, is_new, dx) => Ok(Step::Place(
                mark,
                Steps {
                    is_new,
                    dx,
                    dy: number,
                },
            )),
            Field::Left(shape) => Ok(self.ask(Field::Top(shape, number))),
            Field::Top(shape, left) => self.plain(shape, left, number),
            Field::InheritedCount => self.inherit(number),
            Field::CommentLength => Ok(self.comment(unsigned(i64::from(number)))),
            Field::CommentByte(left) => Ok(self.comment(left)),
        }
    }

    /// Asks for a number.
    pub(crate) fn ask(&self, field: Field) -> Step
        requires pictured { IsPictured self.now.library self.now.picture }
        requires fits { FieldFits field self.now.library self.now.picture }
        ensures fits { Fits result self.now.library self.now.picture }
        ensures rank { rank_of result ≡ number_rank field [] }
        ensures asks { (input : Input) → Stays input (λ later before text at. from_number later before text field at) self.now → Holds input result self.now }
    {
        self.coder.ready();
        let high = self.highest(&field);
        let reader = NumberReader::begin(field.lowest(), high, field.root());
        Step::Number(field, reader)
    }

    /// The greatest number that a field may have.
    fn highest(&self, field: &Field) -> i32
        ensures high { result ≡ high_at field.now self.now.library self.now.picture }
        ensures bounds { AreBounds (low_of field.now) result }
    {
        match field {
            Field::Kind => 11,
            Field::Match(_) => self.library.shape_count().saturating_sub(1) as i32,
            Field::Left(_) => self.width(),
            Field::Top(_, _) => self.height(),
            Field::CommentByte(_) => 255,
            _ => MOST,
        }
    }

    /// A record behind its type.
    fn kind(&mut self, number: i32) -> Result<Step, Halt>
        requires pictured { IsPictured self.old.library self.old.picture }
        requires low { pos 0 ≤ℤ number }
        ensures fits { ResultFits result self.new.library self.new.picture }
        ensures below { IsBelow 0x1_ffff_ffff result }
        ensures later { IsLater self.old self.new }
        ensures moves { (input : Input) → Stays input (λ later before text at. from_kind later before number at) self.old → Moves input result self.new }
    {
        let kind = RecordType::of(number);
        if let Some(fault) = self.library.type_fault(kind) {
            return Err(Halt::Refused(fault));
        }
        if self.resets(kind) {
            return Ok(self.reset());
        }
        match first_field(kind) {
            Some(field) => Ok(self.ask(field)),
            None => Err(self.finish()),
        }
    }

    /// Whether a record of this type brings the contexts of numbers back to their start.
    fn resets(&self, kind: RecordType) -> bool
        ensures { result ≡ (is_require_type kind && self.now.library.started) }
    {
        kind.is_require() && self.library.is_started()
    }

    /// The flag of a start.
    fn flag(&mut self, width: i32, height: i32) -> Result<Step, Halt>
        requires { Fits (step.Flag width height) self.old.library self.old.picture }
        ensures fits { ResultFits result self.new.library self.new.picture }
        ensures below { IsBelow 7 result }
        ensures later { IsLater self.old self.new }
        ensures moves { (input : Input) → Holds input (step.Flag width height) self.old → Moves input result self.new }
    {
        match self.coder.flag() {
            Ok(flag) => self.flagged(width, height, flag),
            Err(stop) => Err(halted(stop, Step::Flag(width, height))),
        }
    }

    /// Whether a mark begins a new row.
    fn row(&mut self, mark: Mark) -> Result<Step, Halt>
        requires { Fits (step.Row mark) self.old.library self.old.picture }
        ensures fits { ResultFits result self.new.library self.new.picture }
        ensures below { IsBelow 14 result }
        ensures later { IsLater self.old self.new }
        ensures moves { (input : Input) → Holds input (step.Row mark) self.old → Moves input result self.new }
    {
        match self.coder.row() {
            Ok(is_new) => Ok(self.ask(Field::Dx(mark, is_new))),
            Err(stop) => Err(halted(stop, Step::Row(mark))),
        }
    }
}

/// The first number behind a type, if there is one.
fn first_field(kind: RecordType) -> Option<Field>
    ensures { result ≡ first_field kind }
{
    match kind {
        RecordType::Start => Some(Field::StartWidth),
        RecordType::MarkBoth => Some(Field::OwnWidth(Use::Both)),
        RecordType::MarkLibrary => Some(Field::OwnWidth(Use::Library)),
        RecordType::MarkImage => Some(Field::OwnWidth(Use::Image)),
        RecordType::RefineBoth => Some(Field::Match(Reference::Refine(Use::Both))),
        RecordType::RefineLibrary => Some(Field::Match(Reference::Refine(Use::Library))),
        RecordType::RefineImage => Some(Field::Match(Reference::Refine(Use::Image))),
        RecordType::Copy => Some(Field::Match(Reference::Copy)),
        RecordType::Plain => Some(Field::OwnWidth(Use::Plain)),
        RecordType::Require => Some(Field::InheritedCount),
        RecordType::Comment => Some(Field::CommentLength),
        RecordType::End => None,
    }
}

/// What keeps records from being read on, where a question at this step waits or is refused.
pub(crate) fn halted(stop: Stop, at: Step) -> Halt
    ensures { result ≡ halt_of stop at }
{
    match stop {
        Stop::NeedBytes => Halt::NeedBytes(at),
        Stop::OutOfMemory => Halt::OutOfMemory(at),
        Stop::Refused(kind) => Halt::Refused(kind),
    }
}
