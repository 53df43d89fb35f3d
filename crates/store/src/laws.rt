// The laws of the map that every store means, for whoever reasons about one.
ghost use Rattle.store.specs.Laws.{EqualIsSame, NextIsLowest, OneMap, PutSetsOne, RemoveClearsOne};

// Stands for the laws: what put, remove and next do, and that a map is known by its look-ups.
pub fn laws_stand()
    ensures equal { EqualIsSame }
    ensures next { NextIsLowest }
    ensures put { PutSetsOne }
    ensures remove { RemoveClearsOne }
    ensures same { OneMap }
{}
