//! The syntax tree: its names are slices of the text.

ghost use Rattle.std.specs.Prelude.{IsTrue};
ghost use Rattle.eco_meaning.specs.Names.{is_name};
ghost use Rattle.eco_vread.specs.Syntax.{named};

use crate::assignment::Assignment;
use eco_netlist::Kind;
use smallvec::SmallVec;

/// An identifier as it is written (IEEE 1364-2005, 3.7): an escaped one's text begins with its backslash.
#[derive(Clone, Copy, Drop)]
pub(crate) struct Ident<'a> {
    pub(crate) escaped: bool,
    pub(crate) text: &'a [u8],
    ghost valid: { IsTrue (is_name (named escaped text.now)) },
}

/// Some identifier: what stands in a free place of a short list.
impl<'a> Default for Ident<'a> {
    fn default() -> Ident<'a> {
        Ident {
            escaped: false,
            text: b"a",
        }
    }
}

/// What an input of a gate is connected to.
#[derive(Clone, Copy, Default, Drop)]
pub(crate) enum Terminal<'a> {
    #[default]
    Low,
    High,
    Net(Ident<'a>),
}

/// The outputs of an instance: most have one, which takes no room apart.
pub(crate) type Outputs<'a> = SmallVec<Ident<'a>, 1>;

/// The inputs of an instance: most have two.
pub(crate) type Inputs<'a> = SmallVec<Terminal<'a>, 2>;

/// An instance of a gate (IEEE 1364-2005, 7.1.6): its own name, if it has one, its outputs and its inputs.
#[derive(Drop)]
pub(crate) struct GateInstance<'a> {
    pub(crate) label: Option<Ident<'a>>,
    pub(crate) outputs: Outputs<'a>,
    pub(crate) inputs: Inputs<'a>,
}

/// A bitwise operator of two operands, by its mark (IEEE 1364-2005, 5.1.10).
#[derive(Clone, Copy, PartialEq, Eq, Drop)]
pub(crate) enum Operator {
    Ampersand,
    Caret,
    TildeCaret,
    CaretTilde,
    Bar,
}

/// A part of an expression in postfix form: operators, and pairs of brackets, stand behind their operands.
#[derive(Clone, Copy, Drop)]
pub(crate) enum Symbol<'a> {
    Term(Terminal<'a>),
    Inverse,
    Binary(Operator),
    Bracketed,
}

/// A statement: declared inputs or outputs, with or without `wire`, declared wires, gates of one kind, or assignments.
#[derive(Drop)]
pub(crate) enum Item<'a> {
    Input(bool, Vec<Ident<'a>>),
    Output(bool, Vec<Ident<'a>>),
    Wire(Vec<Ident<'a>>),
    Gates(Kind, Vec<GateInstance<'a>>),
    Assign(Vec<Assignment<'a>>),
}

/// A port's direction.
#[derive(Clone, Copy, PartialEq, Eq, Drop)]
pub(crate) enum Direction {
    In,
    Out,
}

/// A port of a header (IEEE 1364-2005, 12.3): its direction, with or without `wire`, if one stands before its name.
#[derive(Clone, Copy, Drop)]
pub(crate) struct Port<'a> {
    pub(crate) direction: Option<(Direction, bool)>,
    pub(crate) name: Ident<'a>,
}

/// A file: its module's name, the ports in the header, if it has brackets, and its statements.
#[derive(Drop)]
pub(crate) struct Module<'a> {
    pub(crate) title: Ident<'a>,
    pub(crate) header: Option<Vec<Port<'a>>>,
    pub(crate) statements: Vec<Item<'a>>,
}
