//! The lines that tell a fault of a query, and the query that a line belongs to.

ghost use Rattle.std.specs.Prelude.{◌≡◌, option_map, string_bytes, IfOk};
ghost use Rattle.clpwhere.specs.FaultLines.{fault_line, fault_of, fault_sentence, fault_words, query_number};
ghost use Rattle.clpwhere.specs.MarkedLines.{explained_fault};
ghost use Rattle.clpwhere.specs.PlacedFaults.{told_fault};
ghost use Rattle.clpwhere.specs.QueriedLines.{query_after};

use crate::queries::QueriedText;
use crate::refusal::{behind, place_in};
use crate::text::before_byte;
use fd_language::NoMemory;
use fd_model::kinds::QueryFault;
use std::alloc::Global;

/// The faults of queries.
const FAULTS: [QueryFault; 5] = [
    QueryFault::Instantiation,
    QueryFault::BadType,
    QueryFault::Parameter,
    QueryFault::Evaluation,
    QueryFault::Nonlinear,
];

/// A fault of the query with this number, which stands at this place.
#[derive(Clone, Copy)]
pub(crate) struct PlacedFault {
    pub fault: QueryFault,
    pub query: u64,
    pub place: usize,
}

/// The line of a fault, without its newline.
fn fault_line(fault: QueryFault) -> &'static str
    ensures { result.now ≡ fault_line fault }
{
    match fault {
        QueryFault::Instantiation => "error: instantiation",
        QueryFault::BadType => "error: type",
        QueryFault::Parameter => "error: parameter",
        QueryFault::Evaluation => "error: evaluation",
        QueryFault::Nonlinear => "error: nonlinear",
    }
}

/// The fault that a line without its newline tells.
fn fault_of(words: &[u8]) -> Option<QueryFault>
    ensures { result ≡ fault_of words.now }
{
    FAULTS
        .iter()
        .copied()
        .find(|fault| words == fault_line(*fault).as_bytes())
}

/// What is said of a fault of the query with this number.
pub(crate) fn fault_words(alloc: Global, query: u64, fault: QueryFault) -> Result<String, NoMemory>
    ensures { IfOk result (λ words. string_bytes words ≡ fault_words query fault) }
{
    let line = fault_line(fault);
    Ok(format!(in alloc; "{line} in query {query}")?)
}

/// The sentence that explains a fault.
pub(crate) fn fault_sentence(fault: QueryFault) -> &'static str
    ensures { result.now ≡ fault_sentence fault }
{
    match fault {
        QueryFault::Instantiation => {
            "A goal of this query, or of a clause that it calls, met an open variable where it needs a value: in arithmetic, as a parameter of a range, as the end of a list, among the numbers of fd_element and fd_atmost, or right of #<=>. Or fd_min, fd_max, fd_size or fd_dom met a variable without a domain."
        }
        QueryFault::BadType => {
            "A goal of this query, or of a clause that it calls, met an atom or a compound term where it needs a variable, an integer, a list or a comparison. Constraints have +, - and * alone, and is has // and mod too."
        }
        QueryFault::Parameter => {
            "A goal of this query, or of a clause that it calls, met a parameter of a range that is below 0 or, as a divisor, below 1; or the cost of fd_minimize or fd_maximize is a variable that is no open member of the list."
        }
        QueryFault::Evaluation => {
            "A goal of this query, or of a clause that it calls, divides by 0, or has a number of more than 63 bits as a result, a coefficient or a constant."
        }
        QueryFault::Nonlinear => {
            "A goal of this query, or of a clause that it calls, has a product with variables on both sides. Such a product may only be one side of #=, with a variable or an integer on the other."
        }
    }
}

/// The number in a line `query N`.
fn query_number(line: &[u8]) -> Option<u64>
    ensures { result ≡ query_number line.now }
{
    place_in(behind(b"query ", before_byte(line, b'\n'))?)
}

/// The number of the query that the line behind this one belongs to.
pub(crate) fn query_after(query: Option<u64>, line: &[u8]) -> Option<u64>
    ensures { result ≡ query_after query line.now }
{
    query_number(line).or(query)
}

/// The fault that a line without its newline tells, where the text has the query that the line belongs to.
pub(crate) fn placed_fault(
    text: &QueriedText,
    query: Option<u64>,
    words: &[u8],
) -> Option<PlacedFault>
    ensures { option_map (told_fault text.now.text words.now) result
        ≡ explained_fault text.now query words.now }
{
    let fault = fault_of(words)?;
    let query = query?;
    let place = text.place_of(query)?;
    Some(PlacedFault {
        fault,
        query,
        place,
    })
}
