//! The operators by their names.

ghost use Rattle.std.specs.Prelude.{◌≡◌, ◌||◌, option_map, is_some};
ghost use Rattle.fd_language.specs.Operators.{infix_of, prefix_of, is_operator, left_limit, right_limit};
ghost use Rattle.name_syntax.specs.Operators.{operator_of, nameless, AreRows};

/// On which side an operand may have the operator's own priority.
#[derive(Clone, Copy)]
pub enum Fixity {
    /// xfx
    NotAssociative,
    /// xfy
    RightAssociative,
    /// yfx
    LeftAssociative,
    /// fy
    PrefixAssociative,
    /// fx
    PrefixNotAssociative,
}

/// An operator, without its name.
#[derive(Clone, Copy)]
pub struct Operator {
    /// From 1 to 1200; the greatest binds least.
    pub priority: u32,
    pub fixity: Fixity,
}

/// What a name is as an operator.
#[derive(Clone, Copy)]
pub struct Roles {
    /// Between two operands.
    pub infix: Option<Operator>,
    /// Before its operand.
    pub prefix: Option<Operator>,
}

/// The comma between two operands, whose token is no word.
pub const COMMA: Operator = Operator {
    priority: 1000,
    fixity: Fixity::RightAssociative,
};

impl Operator {
    /// The greatest priority that the left operand may have; 0 of a prefix operator.
    pub fn left_limit(self) -> u32
        ensures { result ≡ left_limit (nameless self) }
    {
        match self.fixity {
            Fixity::LeftAssociative => self.priority,
            Fixity::NotAssociative | Fixity::RightAssociative => self.priority.saturating_sub(1),
            Fixity::PrefixAssociative | Fixity::PrefixNotAssociative => 0,
        }
    }

    /// The greatest priority that the right operand may have.
    pub fn right_limit(self) -> u32
        ensures { result ≡ right_limit (nameless self) }
    {
        match self.fixity {
            Fixity::RightAssociative | Fixity::PrefixAssociative => self.priority,
            Fixity::NotAssociative | Fixity::LeftAssociative | Fixity::PrefixNotAssociative => self
                .priority
                .saturating_sub(1),
        }
    }
}

impl Roles {
    /// Whether the name is an operator's.
    pub fn is_operator(self) -> bool
        ensures { result ≡ (is_some self.infix || is_some self.prefix) }
    {
        self.infix.is_some() || self.prefix.is_some()
    }
}

/// A name of the table.
#[derive(Clone, Copy)]
struct Row {
    name: &'static str,
    roles: Roles,
}

macro_rules! row {
    ($name:literal, infix $priority:literal $fixity:ident) => {
        Row {
            name: $name,
            roles: Roles {
                infix: Some(Operator { priority: $priority, fixity: Fixity::$fixity }),
                prefix: None,
            },
        }
    };
    ($name:literal, prefix $priority:literal $fixity:ident) => {
        Row {
            name: $name,
            roles: Roles {
                infix: None,
                prefix: Some(Operator { priority: $priority, fixity: Fixity::$fixity }),
            },
        }
    };
    ($name:literal, infix $priority:literal $fixity:ident, prefix $below:literal $before:ident) => {
        Row {
            name: $name,
            roles: Roles {
                infix: Some(Operator { priority: $priority, fixity: Fixity::$fixity }),
                prefix: Some(Operator { priority: $below, fixity: Fixity::$before }),
            },
        }
    };
}

/// The operators of ISO/IEC 13211-1 that programs may have, and those of constraints and ranges, by their names.
const ROWS: [Row; 35] = [
    row!("#<", infix 700 NotAssociative),
    row!("#<=>", infix 750 NotAssociative),
    row!("#=", infix 700 NotAssociative),
    row!("#=<", infix 700 NotAssociative),
    row!("#>", infix 700 NotAssociative),
    row!("#>=", infix 700 NotAssociative),
    row!("#\\=", infix 700 NotAssociative),
    row!("&", infix 520 LeftAssociative),
    row!("*", infix 400 LeftAssociative),
    row!("+", infix 500 LeftAssociative),
    Row {
        name: ",",
        roles: Roles {
            infix: Some(COMMA),
            prefix: None,
        },
    },
    row!("-", infix 500 LeftAssociative, prefix 200 PrefixAssociative),
    row!("->", infix 1050 RightAssociative),
    row!("..", infix 510 NotAssociative),
    row!("/", infix 400 LeftAssociative),
    row!("//", infix 400 LeftAssociative),
    row!("/<", infix 400 LeftAssociative),
    row!("/>", infix 400 LeftAssociative),
    row!(":", infix 530 LeftAssociative),
    row!(":-", infix 1200 NotAssociative, prefix 1200 PrefixNotAssociative),
    row!(";", infix 1100 RightAssociative),
    row!("<", infix 700 NotAssociative),
    row!("=", infix 700 NotAssociative),
    row!("=:=", infix 700 NotAssociative),
    row!("=<", infix 700 NotAssociative),
    row!("==", infix 700 NotAssociative),
    row!("=\\=", infix 700 NotAssociative),
    row!(">", infix 700 NotAssociative),
    row!(">=", infix 700 NotAssociative),
    row!("?-", prefix 1200 PrefixNotAssociative),
    row!("\\+", prefix 900 PrefixAssociative),
    row!("\\==", infix 700 NotAssociative),
    row!("in", infix 700 NotAssociative),
    row!("is", infix 700 NotAssociative),
    row!("mod", infix 400 LeftAssociative),
];

fn rows() -> &'static [Row]
    ensures { AreRows result.now }
{
    &ROWS
}

/// What the name is as an operator. The look-up is by bisection.
pub fn roles_of(name: &str) -> Roles
    ensures between { option_map (operator_of name.now) result.infix ≡ infix_of name.now }
    ensures before { option_map (operator_of name.now) result.prefix ≡ prefix_of name.now }
{
    let rows = rows();
    match rows.binary_search_by(|row| row.name.cmp(name)) {
        Ok(place) => rows[place].roles,
        Err(_) => Roles {
            infix: None,
            prefix: None,
        },
    }
}

/// Whether the name is that of an operator.
pub fn is_operator(name: &str) -> bool
    ensures { result ≡ is_operator name.now }
{
    roles_of(name).is_operator()
}
