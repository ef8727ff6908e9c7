//! The kinds of refusal: the one table of their numbers, which users see as `fault K at O`.
ghost use Rattle.std.specs.Prelude.{◌≡◌};

/// At a byte where no token, white space or comment begins, or that may not stand in quotes.
pub const BAD_BYTE: u8 = 1;
/// At the first token that no sentence has there.
pub const UNEXPECTED: u8 = 2;
/// At the end of an input that begins a sentence and is none.
pub const UNENDED: u8 = 3;
/// At the name of a sort that isn't listed.
pub const UNKNOWN_SORT: u8 = 4;
/// At a head that isn't declared.
pub const UNKNOWN_NAME: u8 = 5;
/// At a name that was declared or listed before.
pub const REPEATED: u8 = 6;
/// At a head with another number of arguments than declared.
pub const ARITY: u8 = 7;
/// At a term of another sort than its place asks for.
pub const SORT_CLASH: u8 = 8;
/// At a left side that is a variable.
pub const BARE_VARIABLE: u8 = 9;
/// At a variable that doesn't occur in the left side of its rule.
pub const FREE_VARIABLE: u8 = 10;
/// At a variable in a term to be rewritten.
pub const NOT_GROUND: u8 = 11;
/// At an include that no earlier specification is called.
pub const INCLUDE: u8 = 12;
/// Where there is more than the limits allow.
pub const LIMIT: u8 = 13;
/// At the length that an input may have, where it has more bytes.
pub const TOO_LONG: u8 = 14;
/// At a line of a wrong form.
pub const BAD_LINE: u8 = 15;
/// At a line whose step is out of place.
pub const OUT_OF_PLACE: u8 = 16;
/// At a number that is no integer up to 2^64 - 1 without a leading zero.
pub const BAD_NUMBER: u8 = 17;
/// At the first condition of rules that may have none.
pub const CONDITIONAL: u8 = 19;

/// The numbers of the kinds are those that users are told.
pub fn kinds_are_numbered()
    ensures bad_byte { BAD_BYTE ≡ 1 }
    ensures unexpected { UNEXPECTED ≡ 2 }
    ensures unended { UNENDED ≡ 3 }
    ensures unknown_sort { UNKNOWN_SORT ≡ 4 }
    ensures unknown_name { UNKNOWN_NAME ≡ 5 }
    ensures repeated { REPEATED ≡ 6 }
    ensures arity { ARITY ≡ 7 }
    ensures sort_clash { SORT_CLASH ≡ 8 }
    ensures bare_variable { BARE_VARIABLE ≡ 9 }
    ensures free_variable { FREE_VARIABLE ≡ 10 }
    ensures not_ground { NOT_GROUND ≡ 11 }
    ensures include { INCLUDE ≡ 12 }
    ensures limit { LIMIT ≡ 13 }
    ensures too_long { TOO_LONG ≡ 14 }
    ensures bad_line { BAD_LINE ≡ 15 }
    ensures out_of_place { OUT_OF_PLACE ≡ 16 }
    ensures bad_number { BAD_NUMBER ≡ 17 }
    ensures conditional { CONDITIONAL ≡ 19 }
{}
