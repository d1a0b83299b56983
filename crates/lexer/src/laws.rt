//! Laws of bare texts and of the texts of FORMAT statements, by their apostrophes and parentheses
//! alone.

ghost use Rattle.lexer.specs.Places.{IsBareByPlaces, IsBalancedByCounts};

/// The bare text is the characters of the text in their order: those behind an odd number of
/// apostrophes as they are, and of the others no blank, and each letter raised (ANSI X3.9-1978,
/// 3.1.5, 3.1.6 and 4.8).
pub fn bare_by_places()
    ensures { IsBareByPlaces }
{}

/// A text is balanced exactly when its apostrophes are even in number, and outside character
/// constants its closing parentheses are as many as its opening ones and in no front more than
/// those (ANSI X3.9-1978, 4.8 and 13.1).
pub fn balanced_by_counts()
    ensures { IsBalancedByCounts }
{}
