// What the lines of a file are, and that the answers of a reader are those, whatever pieces come.
ghost use Rattle.std.specs.Prelude.{◌≡◌, ◌≢◌, ◌↔◌, ℕ, List, [], ◌∷◌, ◌++◌, ◌+◌, ◌<◌, ◌≤◌, length, take, IsTrue, Some};
ghost use Rattle.link_base.specs.Shelf.{Shown};
ghost use Rattle.link_text.specs.declared.lines.Line.{Line};
ghost use Rattle.link_text.specs.declared.lines.Ending.TheVariants as ending;
ghost use Rattle.link_text.specs.Lines.{lines_of, rest_of, with_feeds, longest, HasNoFeed, IsLine, Reading, Gives, GivesNext, ShowsEnding, ending_of, text_of};

/// A file is its lines, each with its line feed, and what follows the last of these.
pub fn file_is_its_lines()
    ensures line { (text more : List ℕ) → HasNoFeed text → (lines_of (text ++ 10 ∷ more) ≡ text ∷ lines_of more) × (rest_of (text ++ 10 ∷ more) ≡ rest_of more) }
    ensures rest { (text : List ℕ) → HasNoFeed text → (lines_of text ≡ []) × (rest_of text ≡ text) }
    ensures whole { (octets : List ℕ) → with_feeds (lines_of octets) ++ rest_of octets ≡ octets }
{}

/// Each answer comes exactly where it should for the octets at hand.
pub fn answer_is_exact()
    ensures text { (hand rest text more : List ℕ) (answer : Line) → Gives hand rest answer → IsLine text → hand ≡ text ++ 10 ∷ more → (text_of answer ≡ Some text) × (rest ≡ more) }
    ensures too_long { (hand rest : List ℕ) (answer : Line) → Gives hand rest answer → (ending_of answer ≡ Some ending.TooLong) ↔ ((longest < length hand) × HasNoFeed (take (longest + 1) hand)) }
    ensures end { (hand rest : List ℕ) (answer : Line) → Gives hand rest answer → ending_of answer ≢ Some ending.Failed → (ending_of answer ≡ Some ending.End) ↔ (hand ≡ []) }
    ensures unended { (hand rest : List ℕ) (answer : Line) → Gives hand rest answer → ending_of answer ≢ Some ending.Failed → (ending_of answer ≡ Some ending.Unended) ↔ ((0 < length hand) × (length hand ≤ longest) × HasNoFeed hand) }
{}

/// Whatever pieces come, an answer other than of a failure is that for the octets that are kept and all that are left of the file.
pub fn answer_is_that_of_the_file()
    ensures { (old new : Reading) (before after : Shown) (answer : Line) → GivesNext old new before after answer → ShowsEnding before after (ending_of answer) → IsTrue before.tells → ending_of answer ≢ Some ending.Failed → Gives (old.rest ++ before.left) (new.rest ++ after.left) answer }
{}
