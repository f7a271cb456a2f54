//! The grammar on lines that are written out.
ghost use Rattle.std.specs.Prelude.{◌≡◌, ◌<◌, ◌∷◌, [], Some, true, false, codes, length};
ghost use Rattle.clap.specs.Words.{fault_of};
ghost use Rattle.adr_model.specs.declared.entry.Tie.TheVariants.{Newest, LatestStart};
ghost use Rattle.adr_server.specs.Grammar.{Places, adr_grammar, asks_for_fan, count_text, tie_named, tie_text};

/// Which lines have a fault, and which job, how many workers or readers and which rule for ties the others ask for.
pub fn lines_by_the_grammar()
    ensures plain { (p : Places) → let words = codes "run" ∷ [] in
        (asks_for_fan (adr_grammar p) words ≡ false) × (fault_of (adr_grammar p) words ≡ []) × (count_text (adr_grammar p) words ≡ Some (codes "1")) }
    ensures most { (p : Places) → let words = codes "run" ∷ codes "--workers" ∷ codes "64" ∷ [] in
        (fault_of (adr_grammar p) words ≡ []) × (count_text (adr_grammar p) words ≡ Some (codes "64")) }
    ensures joined { (p : Places) → let words = codes "run" ∷ codes "--workers=7" ∷ [] in
        (fault_of (adr_grammar p) words ≡ []) × (count_text (adr_grammar p) words ≡ Some (codes "7")) }
    ensures no_tie { (p : Places) → let words = codes "run" ∷ [] in tie_named (tie_text (adr_grammar p) words) ≡ Newest }
    ensures newest { (p : Places) → let words = codes "run" ∷ codes "--tie" ∷ codes "newest" ∷ [] in
        (fault_of (adr_grammar p) words ≡ []) × (tie_named (tie_text (adr_grammar p) words) ≡ Newest) }
    ensures latest_start { (p : Places) → let words = codes "run" ∷ codes "--tie=latest-start" ∷ codes "--workers" ∷ codes "2" ∷ [] in
        (fault_of (adr_grammar p) words ≡ []) × (tie_named (tie_text (adr_grammar p) words) ≡ LatestStart) × (count_text (adr_grammar p) words ≡ Some (codes "2")) }
    ensures no_word { (p : Places) → 0 < length (fault_of (adr_grammar p) []) }
    ensures fan { (p : Places) → let words = codes "fan" ∷ [] in
        (asks_for_fan (adr_grammar p) words ≡ true) × (fault_of (adr_grammar p) words ≡ []) × (count_text (adr_grammar p) words ≡ Some (codes "1")) }
    ensures readers { (p : Places) → let words = codes "fan" ∷ codes "--readers" ∷ codes "2" ∷ [] in
        (asks_for_fan (adr_grammar p) words ≡ true) × (fault_of (adr_grammar p) words ≡ []) × (count_text (adr_grammar p) words ≡ Some (codes "2")) }
    ensures unknown { (p : Places) → 0 < length (fault_of (adr_grammar p) (codes "walk" ∷ [])) }
    ensures workers_of_fan { (p : Places) → 0 < length (fault_of (adr_grammar p) (codes "fan" ∷ codes "--workers" ∷ codes "2" ∷ [])) }
    ensures no_reader { (p : Places) → 0 < length (fault_of (adr_grammar p) (codes "fan" ∷ codes "--readers" ∷ codes "0" ∷ [])) }
    ensures no_worker { (p : Places) → 0 < length (fault_of (adr_grammar p) (codes "run" ∷ codes "--workers" ∷ codes "0" ∷ [])) }
    ensures too_many { (p : Places) → 0 < length (fault_of (adr_grammar p) (codes "run" ∷ codes "--workers" ∷ codes "65" ∷ [])) }
    ensures no_rule { (p : Places) → 0 < length (fault_of (adr_grammar p) (codes "run" ∷ codes "--tie" ∷ codes "oldest" ∷ [])) }
{}
