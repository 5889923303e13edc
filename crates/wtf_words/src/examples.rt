//! What some words ask for.

ghost use Rattle.std.specs.Prelude.{◌≡◌, ◌-◌, ◌^◌, Some, None, [], ◌∷◌, codes};
ghost use Rattle.wtf_words.specs.Words.{asked_of};
ghost use Rattle.wtf_words.specs.declared.Script.TheVariants as script;

/// Words that are taken.
fn taken_words()
    ensures none { asked_of [] ≡ Some (record {
      numbers = record { servers = 4; replicas = 2; region = 65536 };
      script = script.Read;
    }) }
    ensures all { asked_of
        (codes "--region=64" ∷ codes "--servers" ∷ codes "16" ∷ codes "--replicas=3" ∷ []) ≡
        Some (record {
          numbers = record { servers = 16; replicas = 3; region = 64 };
          script = script.Read;
        }) }
    ensures generated { asked_of
        (codes "--gen" ∷ codes "7" ∷ codes "--lines" ∷ codes "20000" ∷ []) ≡ Some (record {
          numbers = record { servers = 4; replicas = 2; region = 65536 };
          script = script.Generated (record { number = 7; lines = 20000 });
        }) }
    ensures greatest { asked_of
        (codes "--gen=18446744073709551615" ∷ codes "--lines=1000000" ∷ []) ≡ Some (record {
          numbers = record { servers = 4; replicas = 2; region = 65536 };
          script = script.Generated (record { number = 2 ^ 64 - 1; lines = 1000000 });
        }) }
{}

/// Words that are not.
fn refused_words()
    ensures servers { asked_of (codes "--servers" ∷ codes "17" ∷ []) ≡ None }
    ensures replicas { asked_of
        (codes "--servers" ∷ codes "2" ∷ codes "--replicas" ∷ codes "3" ∷ []) ≡ None }
    ensures twice { asked_of (codes "--region=64" ∷ codes "--region=64" ∷ []) ≡ None }
    ensures sign { asked_of (codes "--servers=+3" ∷ []) ≡ None }
    ensures zero { asked_of (codes "--servers=03" ∷ []) ≡ None }
    ensures other { asked_of (codes "--files=1" ∷ []) ≡ None }
    ensures no_lines { asked_of (codes "--gen=1" ∷ []) ≡ None }
    ensures no_number { asked_of (codes "--lines" ∷ codes "1" ∷ []) ≡ None }
    ensures few { asked_of (codes "--gen=1" ∷ codes "--lines=0" ∷ []) ≡ None }
    ensures many { asked_of (codes "--gen=1" ∷ codes "--lines=1000001" ∷ []) ≡ None }
    ensures large { asked_of
        (codes "--gen=18446744073709551616" ∷ codes "--lines=1" ∷ []) ≡ None }
{}
