// What holds of, is found among or adds up over the numbers below a bound: definitions in specs/, lemmas in proofs/.
#![tactic(auto)]

ghost use Rattle.counting.specs.Searches.{SearchesFindWhatTheySay};

// Whatever the test, the key and the bound, the searches find what their names say.
pub fn searches_find_what_they_say()
    ensures { SearchesFindWhatTheySay }
{}
