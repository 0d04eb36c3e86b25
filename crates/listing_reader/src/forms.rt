//! The forms of instructions, and their names.

ghost use Rattle.std.specs.Prelude.{◌≡◌};
ghost use Rattle.listing_reader.specs.declared.forms.One.TheVariants as one;
ghost use Rattle.listing_reader.specs.declared.forms.Operation.TheVariants as form;
ghost use Rattle.listing_reader.specs.Forms.{IsAnyForm, counted_code, form_name, slotted_code};
ghost use Rattle.listing_reader.specs.Reading.{Reads};

use wam_code::Code;

/// Whether an instruction takes a head's argument or makes a goal's.
#[derive(Clone, Copy)]
pub(crate) enum Side {
    Get,
    Put,
}

/// The kind of keys that a switch has.
#[derive(Clone, Copy)]
pub(crate) enum Kind {
    Atoms,
    Integers,
    Structures,
}

/// An instruction without operands.
#[derive(Clone, Copy)]
pub(crate) enum Lone {
    Deallocate,
    Proceed,
    FailNow,
    AnswerNow,
    TrustMe,
}

/// An instruction whose operand is a number.
#[derive(Clone, Copy)]
pub(crate) enum Counted {
    UnifyVoid,
    Allocate,
    Call,
    Execute,
    Jump,
    TryMeElse,
    RetryMeElse,
    Try,
    Retry,
    Trust,
    Either,
}

/// An instruction whose operand is a slot.
#[derive(Clone, Copy)]
pub(crate) enum Slotted {
    Level,
    TestOnly,
    CutTo,
}

/// An instruction with one operand.
#[derive(Clone, Copy)]
pub(crate) enum One {
    UnifyVariable,
    UnifyValue,
    UnifyConstant,
    UnifyInteger,
    Counted(Counted),
    Slotted(Slotted),
    Builtin,
    Constrain,
    Label,
}

/// An instruction with two operands.
#[derive(Clone, Copy)]
pub(crate) enum Two {
    Variable(Side),
    Value(Side),
    Constant(Side),
    Integer(Side),
    Best,
    PostRange,
}

/// An instruction with three operands.
#[derive(Clone, Copy)]
pub(crate) enum Three {
    Structure(Side),
    EnterTest,
}

/// An instruction without its operands.
#[derive(Clone, Copy)]
pub(crate) enum Operation {
    Lone(Lone),
    One(One),
    Two(Two),
    Three(Three),
    SwitchOnTerm,
    Switch(Kind),
}

/// All forms.
const FORMS: [Operation; 43] = [
    Operation::Two(Two::Variable(Side::Get)),
    Operation::Two(Two::Value(Side::Get)),
    Operation::Two(Two::Constant(Side::Get)),
    Operation::Two(Two::Integer(Side::Get)),
    Operation::Three(Three::Structure(Side::Get)),
    Operation::Two(Two::Variable(Side::Put)),
    Operation::Two(Two::Value(Side::Put)),
    Operation::Two(Two::Constant(Side::Put)),
    Operation::Two(Two::Integer(Side::Put)),
    Operation::Three(Three::Structure(Side::Put)),
    Operation::One(One::UnifyVariable),
    Operation::One(One::UnifyValue),
    Operation::One(One::UnifyConstant),
    Operation::One(One::UnifyInteger),
    Operation::One(One::Counted(Counted::UnifyVoid)),
    Operation::One(One::Counted(Counted::Allocate)),
    Operation::One(One::Counted(Counted::Call)),
    Operation::One(One::Counted(Counted::Execute)),
    Operation::One(One::Counted(Counted::Jump)),
    Operation::One(One::Counted(Counted::TryMeElse)),
    Operation::One(One::Counted(Counted::RetryMeElse)),
    Operation::One(One::Counted(Counted::Try)),
    Operation::One(One::Counted(Counted::Retry)),
    Operation::One(One::Counted(Counted::Trust)),
    Operation::One(One::Counted(Counted::Either)),
    Operation::Lone(Lone::Deallocate),
    Operation::Lone(Lone::Proceed),
    Operation::Lone(Lone::FailNow),
    Operation::Lone(Lone::AnswerNow),
    Operation::Lone(Lone::TrustMe),
    Operation::SwitchOnTerm,
    Operation::Switch(Kind::Atoms),
    Operation::Switch(Kind::Integers),
    Operation::Switch(Kind::Structures),
    Operation::One(One::Builtin),
    Operation::One(One::Constrain),
    Operation::One(One::Label),
    Operation::Two(Two::Best),
    Operation::Two(Two::PostRange),
    Operation::One(One::Slotted(Slotted::Level)),
    Operation::One(One::Slotted(Slotted::TestOnly)),
    Operation::One(One::Slotted(Slotted::CutTo)),
    Operation::Three(Three::EnterTest),
];

impl Lone {
    /// The name with which a line writes it.
    fn name(self) -> &'static [u8]
        ensures { result.now ≡ form_name (form.Lone self) }
    {
        match self {
            Lone::Deallocate => b"Deallocate",
            Lone::Proceed => b"Proceed",
            Lone::FailNow => b"FailNow",
            Lone::AnswerNow => b"AnswerNow",
            Lone::TrustMe => b"TrustMe",
        }
    }
}

impl Counted {
    /// The name with which a line writes it.
    fn name(self) -> &'static [u8]
        ensures { result.now ≡ form_name (form.One (one.Counted self)) }
    {
        match self {
            Counted::UnifyVoid => b"UnifyVoid",
            Counted::Allocate => b"Allocate",
            Counted::Call => b"Call",
            Counted::Execute => b"Execute",
            Counted::Jump => b"Jump",
            Counted::TryMeElse => b"TryMeElse",
            Counted::RetryMeElse => b"RetryMeElse",
            Counted::Try => b"Try",
            Counted::Retry => b"Retry",
            Counted::Trust => b"Trust",
            Counted::Either => b"Either",
        }
    }
}

impl Slotted {
    /// The name with which a line writes it.
    fn name(self) -> &'static [u8]
        ensures { result.now ≡ form_name (form.One (one.Slotted self)) }
    {
        match self {
            Slotted::Level => b"Level",
            Slotted::TestOnly => b"TestOnly",
            Slotted::CutTo => b"CutTo",
        }
    }
}

impl One {
    /// The name with which a line writes it.
    fn name(self) -> &'static [u8]
        ensures { result.now ≡ form_name (form.One self) }
    {
        match self {
            One::UnifyVariable => b"UnifyVariable",
            One::UnifyValue => b"UnifyValue",
            One::UnifyConstant => b"UnifyConstant",
            One::UnifyInteger => b"UnifyInteger",
            One::Counted(counted) => counted.name(),
            One::Slotted(slotted) => slotted.name(),
            One::Builtin => b"Builtin",
            One::Constrain => b"Constrain",
            One::Label => b"Label",
        }
    }
}

impl Two {
    /// The name with which a line writes it.
    fn name(self) -> &'static [u8]
        ensures { result.now ≡ form_name (form.Two self) }
    {
        match self {
            Two::Variable(Side::Get) => b"GetVariable",
            Two::Value(Side::Get) => b"GetValue",
            Two::Constant(Side::Get) => b"GetConstant",
            Two::Integer(Side::Get) => b"GetInteger",
            Two::Variable(Side::Put) => b"PutVariable",
            Two::Value(Side::Put) => b"PutValue",
            Two::Constant(Side::Put) => b"PutConstant",
            Two::Integer(Side::Put) => b"PutInteger",
            Two::Best => b"Best",
            Two::PostRange => b"PostRange",
        }
    }
}

impl Three {
    /// The name with which a line writes it.
    fn name(self) -> &'static [u8]
        ensures { result.now ≡ form_name (form.Three self) }
    {
        match self {
            Three::Structure(Side::Get) => b"GetStructure",
            Three::Structure(Side::Put) => b"PutStructure",
            Three::EnterTest => b"EnterTest",
        }
    }
}

impl Operation {
    /// The name with which a line writes it.
    fn name(self) -> &'static [u8]
        ensures { result.now ≡ form_name self }
    {
        match self {
            Operation::Lone(lone) => lone.name(),
            Operation::One(one) => one.name(),
            Operation::Two(two) => two.name(),
            Operation::Three(three) => three.name(),
            Operation::SwitchOnTerm => b"SwitchOnTerm",
            Operation::Switch(Kind::Atoms) => b"SwitchOnConstant",
            Operation::Switch(Kind::Integers) => b"SwitchOnInteger",
            Operation::Switch(Kind::Structures) => b"SwitchOnStructure",
        }
    }
}

/// The form whose name a word is.
pub(crate) fn read_form(word: &[u8]) -> Option<Operation>
    ensures { Reads IsAnyForm form_name word.now result }
{
    for form in FORMS {
        if form.name() == word {
            return Some(form);
        }
    }
    None
}

/// The instruction of this form with a number.
pub(crate) fn counted_code(counted: Counted, number: usize) -> Code
    ensures { result ≡ counted_code counted number }
{
    match counted {
        Counted::UnifyVoid => Code::UnifyVoid(number),
        Counted::Allocate => Code::Allocate(number),
        Counted::Call => Code::Call(number),
        Counted::Execute => Code::Execute(number),
        Counted::Jump => Code::Jump(number),
        Counted::TryMeElse => Code::TryMeElse(number),
        Counted::RetryMeElse => Code::RetryMeElse(number),
        Counted::Try => Code::Try(number),
        Counted::Retry => Code::Retry(number),
        Counted::Trust => Code::Trust(number),
        Counted::Either => Code::Either(number),
    }
}

/// The instruction of this form with a slot.
pub(crate) fn slotted_code(slotted: Slotted, slot: usize) -> Code
    ensures { result ≡ slotted_code slotted slot }
{
    match slotted {
        Slotted::Level => Code::Level(slot),
        Slotted::TestOnly => Code::TestOnly(slot),
        Slotted::CutTo => Code::CutTo(slot),
    }
}
