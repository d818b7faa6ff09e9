//! Which fields the values on the stacks of a method were read from, as an analysis by visits. No
//! frame changes where edges meet: where they bring different colours, the fields that these name
//! are no owned ones, and for every other field the first frame that comes is as good as each.

ghost use Rattle.std.specs.Prelude.{◌≡◌, ◌∷◌, [], List, Some, Ok, true, IfOk, OnOk};
ghost use Rattle.jvm_types.specs.Verifying.{covering};
ghost use Rattle.checked_program.specs.Tagging.{until_all};
ghost use Rattle.checked_program.specs.Visits.{acts_on};
ghost use Rattle.code_visits.specs.Waiting.{plan_node_at};
ghost use Rattle.code_visits.specs.Analyses.{Leaves};
ghost use Rattle.guard_analysis.specs.ColourVisits.{colour_made, colour_plan};
ghost use Rattle.guard_analysis.specs.ColourVisits.{field_colours_after, is_array_field};
ghost use Rattle.guard_analysis.specs.ColourVisits.{may_be_owned};
ghost use Rattle.guard_analysis.specs.ColourVisits.{colour_acts, colours_at_handlers};
ghost use Rattle.guard_analysis.specs.ColourVisits.{goes_coloured};
ghost use Rattle.guard_analysis.specs.ColourVisits.{same_colour};
ghost use Rattle.guard_analysis.specs.ColourVisits.{AreColourNodes, colours_done};
ghost use Rattle.guard_analysis.specs.declared.colouring.Colour.{Colour as Coloured};
ghost use Rattle.guard_analysis.specs.declared.colouring.Colour.TheVariants.{Plain as plain};

use code_table::{Making, can_throw, edges, row, stack_after};
use code_visits::{Analysis, Frames, Nodes, Stop, go_along, go_to};
use handler_rows::HandledMethod;
use jvm_types::class_numbers::INT_ARRAY_CLASS;
use jvm_types::flags::{is_private, is_static};
use jvm_types::{FieldInfo, Insn, Kind, MethodInfo, Op, OpRow, Program, Stack, Target, VType};
use std::alloc::{AllocError, Global};

/// What is known of a value on the stack: nothing, or the number of the array field that it was
/// read from.
#[derive(Clone, Copy, Debug, PartialEq, Eq)]
pub enum Colour {
    Plain,
    Of(u32),
}

/// Whether two values are known to have been read from one field, or both from none.
pub fn is_same(colour: Colour, other: Colour) -> bool
    ensures { result ≡ same_colour colour other }
{
    match (colour, other) {
        (Colour::Plain, Colour::Plain) => true,
        (Colour::Of(field), Colour::Of(of)) => field == of,
        _ => false,
    }
}

/// Whether a field may be an owned one by its flags and its type.
pub fn may_be_owned(info: &FieldInfo) -> bool
    ensures { result ≡ may_be_owned (Some info.now) }
{
    match info.kind {
        Kind::Ref(class) => class == INT_ARRAY_CLASS
            && is_private(info.flags)
            && !is_static(info.flags),
        _ => false,
    }
}

/// The same of the field of a number.
pub fn is_array_field(p: &Program, field: u32) -> bool
    ensures { result ≡ is_array_field p.now field }
{
    match p.fields.get(field as usize) {
        Some(info) => may_be_owned(info),
        None => false,
    }
}

/// The colour of what an instruction makes.
fn colour_made(p: &Program, op: &Op, target: Target) -> Colour
    ensures { result ≡ colour_made p.now op.now target }
{
    match op {
        Op::Getfield(_) => match target {
            Target::Field(field) => {
                if is_array_field(p, field) {
                    Colour::Of(field)
                } else {
                    Colour::Plain
                }
            }
            _ => Colour::Plain,
        },
        _ => Colour::Plain,
    }
}

/// Places hold colours, and what an instruction makes has this one.
#[derive(Drop)]
struct Made {
    colour: Colour,
}

impl Making for Made {
    type Value = Colour;

    ghost use Rattle.guard_analysis.specs.declared.colouring.Colour.TheVariants.{Plain as plain};

    ghost none = { λ made. plain };

    ghost made = { λ made type. made.colour };

    fn none(&self) -> Colour {
        Colour::Plain
    }

    fn made(&self, _t: VType) -> Colour {
        self.colour
    }
}

/// The colours after an instruction. A local has none: what takes a coloured value into one takes
/// the field out.
pub fn colours_after(
    alloc: Global,
    p: &Program,
    insn: &Insn,
    target: Target,
    row: &OpRow,
    stack: &Stack<Colour>,
) -> Result<Stack<Colour>, AllocError>
    ensures { IfOk result
        (λ after. after ≡ field_colours_after p.now insn.now target row.now stack.now) }
{
    let made = Made {
        colour: colour_made(p, &insn.op, target),
    };
    stack_after(alloc, &made, row, stack, &[])
}

/// The colours at a handler: of the one exception.
pub fn colours_at_handler(alloc: Global) -> Result<Stack<Colour>, AllocError>
    ensures { IfOk result (λ stack. stack ≡ plain ∷ []) }
{
    let mut stack = Stack::new(alloc);
    stack.push(Colour::Plain)?;
    Ok(stack)
}

/// The bytes that one colour takes.
const COLOUR_BYTES: usize = 8;

/// No visit of a colouring breaks a rule.
#[derive(Clone, Copy, Debug, PartialEq, Eq)]
pub enum NoRule {
    Nothing,
}

/// Frames of colours, of which the first that an edge brings stays.
pub struct Colouring;

impl Frames for Colouring {
    type Frame = Stack<Colour>;

    ghost use Rattle.guard_analysis.specs.ColourVisits.{colour_meeting};
    ghost use Rattle.guard_analysis.specs.ColourWork.{colours_meet};

    ghost meeting = { colour_meeting };

    ghost width = { λ f. 0 };

    ghost lawful = { colours_meet };

    fn bytes_of(f: &Stack<Colour>) -> usize {
        f.len().saturating_mul(COLOUR_BYTES)
    }

    fn copy(alloc: Global, f: &Stack<Colour>) -> Result<Stack<Colour>, AllocError> {
        f.copy(alloc)
    }

    fn clashes(_f: &Stack<Colour>, _other: &Stack<Colour>) -> bool {
        false
    }

    fn stays(_f: &Stack<Colour>, _other: &Stack<Colour>) -> bool {
        true
    }

    fn meet(
        _alloc: Global,
        f: Stack<Colour>,
        _other: &Stack<Colour>,
    ) -> Result<(Stack<Colour>, bool), AllocError> {
        Ok((f, false))
    }
}

impl Analysis for Colouring {
    type Rule = NoRule;

    const NODE_BYTES: usize = 64;

    ghost use Rattle.std.specs.Prelude.{slice_get};
    ghost use Rattle.laws_sections.proofs.VisitsEnd.{IsKept, work};
    ghost use Rattle.guard_analysis.specs.ColourVisits.{colours_first, colour_acts_at};
    ghost use Rattle.guard_analysis.specs.ColourVisits.{colour_plan};
    ghost use Rattle.guard_analysis.specs.ColourWork.{colour_ranks, colours_end};

    ghost first = { colours_first };

    ghost acts = { λ p m i f. colour_acts_at p m (slice_get m.code i) (slice_get m.targets i) f };

    ghost is_kept = { λ p m nodes. IsKept (colour_plan p m) (colour_ranks p m) nodes };

    ghost work = { λ p m nodes. work (colour_plan p m) (colour_ranks p m) nodes };

    ghost ends = { λ p m laid. colours_end p m };

    fn first(alloc: Global, _m: &MethodInfo) -> Result<Stack<Colour>, AllocError> {
        Ok(Stack::new(alloc))
    }

    fn visit(
        alloc: Global,
        p: &Program,
        m: &HandledMethod<'_>,
        nodes: &mut Nodes<Stack<Colour>>,
        i: usize,
    ) -> Result<(), Stop<NoRule>> {
        visit(alloc, p, m, nodes, i)
    }
}

/// Whether the instruction at a pc has its frame, so that an edge that leads there changes nothing;
/// it may be told to have none.
fn has_frame(m: &HandledMethod<'_>, nodes: &Nodes<Stack<Colour>>, to: u32) -> bool
    requires { AreColourNodes m.now nodes.now }
    ensures { result ≡ true → (stack : List Coloured)
        → colours_done m.now (goes_coloured (to ∷ []) stack ∷ []) nodes.now ≡ Ok nodes.now }
{
    m.laid_out();
    match m.find(to) {
        Some(i) => match nodes.frame(i) {
            Some(_frame) => true,
            None => false,
        },
        None => false,
    }
}

/// An exception goes to the handler at a pc, unless an edge led there before.
fn reach(
    alloc: Global,
    m: &HandledMethod<'_>,
    nodes: &mut Nodes<Stack<Colour>>,
    to: u32,
    at_handler: &Stack<Colour>,
) -> Result<(), Stop<NoRule>>
    requires level { AreColourNodes m.now nodes.old }
    ensures left { Leaves
        (colours_done m.now (goes_coloured (to ∷ []) at_handler.now ∷ []) nodes.old) nodes.new
        result }
    ensures level { OnOk result (AreColourNodes m.now nodes.new) }
{
    if has_frame(m, nodes, to) {
        return Ok(());
    }
    go_to::<Colouring, _>(alloc, m, nodes, NoRule::Nothing, to, at_handler)
}

/// An exception goes to the handlers of the rows that cover a pc, up to the first that catches all.
fn handle(
    alloc: Global,
    m: &HandledMethod<'_>,
    nodes: &mut Nodes<Stack<Colour>>,
    pc: u32,
    at_handler: &Stack<Colour>,
) -> Result<(), Stop<NoRule>>
    requires level { AreColourNodes m.now nodes.old }
    ensures left { Leaves
        (colours_done m.now (colours_at_handlers at_handler.now (until_all (covering m.now pc)))
        nodes.old) nodes.new result }
    ensures level { OnOk result (AreColourNodes m.now nodes.new) }
{
    let mut k = 0;
    while let Some((behind, row)) = m.next_row(k, pc, 0) {
        reach(alloc, m, nodes, row.handler, at_handler)?;
        if row.catch_class == 0 {
            return Ok(());
        }
        k = behind;
    }
    Ok(())
}

/// The edges of an instruction that finds these colours and has this row.
fn go_on(
    alloc: Global,
    p: &Program,
    m: &HandledMethod<'_>,
    nodes: &mut Nodes<Stack<Colour>>,
    insn: &Insn,
    target: Target,
    row: &OpRow,
    after: Stack<Colour>,
) -> Result<(), Stop<NoRule>>
    requires level { AreColourNodes m.now nodes.old }
    ensures left { (stack : List Coloured)
        → after ≡ field_colours_after p.now insn.now target row.now stack
        → Leaves
        (colours_done m.now (colour_acts p.now m.now insn.now target row.now stack) nodes.old)
        nodes.new result }
    ensures level { OnOk result (AreColourNodes m.now nodes.new) }
{
    let tos = edges(alloc, insn)?;
    go_along::<Colouring, _>(alloc, m, nodes, NoRule::Nothing, &tos, after)?;
    if can_throw(&insn.op) {
        let at_handler = colours_at_handler(alloc)?;
        handle(alloc, m, nodes, insn.pc, &at_handler)?;
    }
    Ok(())
}

/// The visit of the instruction of this number: its edges, then those to handlers.
fn visit(
    alloc: Global,
    p: &Program,
    m: &HandledMethod<'_>,
    nodes: &mut Nodes<Stack<Colour>>,
    i: usize,
) -> Result<(), Stop<NoRule>>
    requires level { AreColourNodes m.now nodes.old }
    ensures left { Leaves (colours_done m.now
        (acts_on (colour_plan p.now m.now) i (plan_node_at nodes.old i).frame) nodes.old) nodes.new
        result }
    ensures level { OnOk result (AreColourNodes m.now nodes.new) }
{
    let method = m.method();
    let (Some(insn), Some(target)) = (method.code.get(i), method.targets.get(i)) else {
        return Ok(());
    };
    let Some(frame) = nodes.frame(i) else {
        return Ok(());
    };
    let row = row(alloc, p, method, insn.pc, *target, &insn.op)?;
    let after = colours_after(alloc, p, insn, *target, &row, frame)?;
    go_on(alloc, p, m, nodes, insn, *target, &row, after)
}
