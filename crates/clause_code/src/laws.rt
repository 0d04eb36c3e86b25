//! The laws of pieces of code, each the contract of a function that does nothing.

ghost use Rattle.clause_code.specs.Laws.{MoreRegisters, PartsApart, AnyOrder, BothWays, ListsInOrder};

/// What a place stands for, it stands for with more registers too.
pub fn more_registers()
    ensures { MoreRegisters }
{}

/// A structure inside a structure may be read in place, by a register of its own.
pub fn parts_apart()
    ensures { PartsApart }
{}

/// The arguments of a head may be matched in any order.
pub fn any_order()
    ensures { AnyOrder }
{}

/// The two sides of `A ; B` may be compiled apart, where they leave the same registers.
pub fn both_ways()
    ensures { BothWays }
{}

/// A list of choices tries the clauses of its places in order.
pub fn lists_in_order()
    ensures { ListsInOrder }
{}
