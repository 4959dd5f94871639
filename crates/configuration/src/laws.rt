//! What follows from the definitions of keys, of ranges and of lists of users.

ghost use Rattle.configuration.specs.KeyLaws.{KeysKeepRows, SmallNumbersAreExact};
ghost use Rattle.configuration.specs.RangeLaws.{RangeHolds};
ghost use Rattle.configuration.specs.UserLists.{KeptUsersAreAList, UserListHolds};

/// In a table whose keys have no flaw, each key has a value of its kind, or is optional and missing. A small number is
/// read as the file has it, or as the usual one where it is missing.
pub fn laws_of_keys()
    ensures rows { KeysKeepRows }
    ensures exact { SmallNumbersAreExact }
{}

/// A range contains a name exactly if the name has as many digits as the range's ends, and its number lies between
/// them.
pub fn laws_of_ranges()
    ensures holds { RangeHolds }
{}

/// A list that the key `users` may have is of 1 to 1000 users, each well formed, none twice. The users of a
/// configuration that keeps the rules are such a list.
pub fn laws_of_user_lists()
    ensures holds { UserListHolds }
    ensures kept { KeptUsersAreAList }
{}
