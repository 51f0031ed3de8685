// What holds of the definitions.
ghost use Rattle.std.specs.Prelude.{◌≡◌, ◌≢◌, ◌++◌, ◌<◌, ◌^◌, List, [], ℕ, length, Some};
ghost use Rattle.std.specs.List.{All};
ghost use Rattle.kam_code.specs.declared.code.Code.{Code};
ghost use Rattle.kam_code.specs.State.{Region, State, start};
ghost use Rattle.kam_code.specs.Layout.{text_words, text_from};
ghost use Rattle.kam_code.specs.Memory.{region_words, with_more, pointer, text_behind};
ghost use Rattle.kam_code.specs.Step.{End, Goes, Ends, Halted, Stuck, step, steps, resumed};
ghost use Rattle.kam_code.specs.Run.{Run, run_of, turn, CodeReaches};
ghost use Rattle.kam_code.specs.Growth.{Grows, TurnGrows, TurnCalls};
ghost use Rattle.kam_code.specs.Examples.{pair_code, pair_end, call_code, call_end, raise_code, raise_end};
ghost use Rattle.web_data.specs.declared.database.WebAns.{WebAns};

/// A text that is laid out is read back, whatever follows it.
pub fn text_is_read_back()
    ensures { (text back : List ℕ) → All (λ b. b < 256) text → text_from (text_words text ++ back) ≡ Some text }
{}

/// A text that is made in a region lies behind the pointer to the region's end.
pub fn text_is_made()
    ensures { (serial : ℕ) (words text : List ℕ) (regions : List Region) → All (λ b. b < 256) text → region_words serial regions ≡ Some words → length words < 2 ^ 32 → text_behind (pointer serial (length words)) (with_more serial (text_words text) regions) ≡ Some text }
{}

/// A text stays where it lies when a region grows.
pub fn text_stays()
    ensures { (p serial : ℕ) (more text : List ℕ) (regions : List Region) → text_behind p regions ≡ Some text → text_behind p (with_more serial more regions) ≡ Some text }
{}

/// Where a run ends, no state before its end lacks a step.
pub fn ended_run_lacks_no_step()
    ensures { (code : Code) (state final : State) (end : End) (n m : ℕ) → steps code n state ≡ Ends end final → steps code m state ≢ Stuck }
{}

/// A step makes the charge greater, and never lowers the number of regions made; so does the step of a call that has its answer.
pub fn steps_grow()
    ensures steps { (code : Code) (state : State) → Grows state (step code state) }
    ensures answers { (code : Code) (answer : WebAns) (state : State) → Grows state (resumed code answer state) }
{}

/// A step of a run with answers makes the charge greater, and never lowers the number of regions made. It makes one call at the most, which takes the first of the answers that are left.
pub fn turns_go_on()
    ensures grow { (code : Code) (run : Run) → TurnGrows run (turn code run) }
    ensures calls { (code : Code) (run : Run) → TurnCalls run (turn code run) }
{}

/// Where steps from the start make no call, the code reaches their state whatever the answers.
pub fn steps_are_reached()
    ensures { (code : Code) (form : List (List ℕ × List ℕ)) (databases : List (List ℕ)) (answers : List WebAns) (n : ℕ) (final : State) → steps code n (start form databases) ≡ Goes final → CodeReaches code form databases answers (run_of answers [] final) }
{}

/// A pair is made in a region, read, and its region ends.
pub fn pair_is_read()
    ensures { steps pair_code 8 (start [] []) ≡ Ends Halted pair_end }
{}

/// A function is called, and returns.
pub fn call_returns()
    ensures { steps call_code 10 (start [] []) ≡ Ends Halted call_end }
{}

/// A raise leaves two frames.
pub fn raise_leaves_two_frames()
    ensures { steps raise_code 18 (start [] []) ≡ Ends Halted raise_end }
{}
