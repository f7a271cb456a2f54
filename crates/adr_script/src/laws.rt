//! How bytes are cut into lines, and which text machines tell, in other words.
ghost use Rattle.std.specs.Prelude.{◌≡◌, ℕ, Bool, List, [], IsTrue};
ghost use Rattle.adr_script.specs.Lines.{complete_lines, rest_from, Cuts};
ghost use Rattle.adr_script.specs.Text.{text, text_but};

/// The bytes are the complete lines, each with its line feed, and then a rest with none.
pub fn lines_make_up_the_bytes()
    ensures { (bytes : List ℕ) → Cuts bytes (complete_lines bytes) (rest_from [] bytes) }
{}

/// No other lines and rest make up the bytes.
pub fn no_other_lines_do()
    ensures { (bytes : List ℕ) (lines : List (List ℕ)) (rest : List ℕ) → Cuts bytes lines rest
        → (lines ≡ complete_lines bytes) × (rest ≡ rest_from [] bytes) }
{}

/// Where no line is refused for want of memory, it is the text.
pub fn no_mark_is_the_text<S>()
    ensures { (reply : S → List ℕ → List ℕ) (next : S → List ℕ → S) (s : S)
        → (lines : List (List ℕ)) → text_but reply next [] s lines ≡ text reply next s lines }
{}

/// Machines whose states are alike, and stay so while they reply the same, tell one text.
pub fn like_machines_tell_one_text<S, T>()
    ensures { (reply : S → List ℕ → List ℕ) (next : S → List ℕ → S)
        (other : T → List ℕ → List ℕ) (onward : T → List ℕ → T)
        (alike : S → T → Bool)
        → ((s : S) (t : T) (line : List ℕ) → IsTrue (alike s t)
        → (reply s line ≡ other t line) × IsTrue (alike (next s line) (onward t line)))
        → (s : S) (t : T) → IsTrue (alike s t) → (marks : List Bool) (lines : List (List ℕ))
        → text_but reply next marks s lines ≡ text_but other onward marks t lines }
{}
