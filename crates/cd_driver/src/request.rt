ghost use Rattle.std.specs.Prelude.{◌≡◌, ◌≤◌, ◌↔◌, [], ◌∷◌, length, IsTrue, MatchOption};
ghost use Rattle.std.specs.Char.{is_ascii_digit};
ghost use Rattle.std.specs.List.{list_all};
ghost use Rattle.cd_syntax.specs.Digits.{AreDigits, decimal_value};
ghost use Rattle.cd_driver.specs.Command.{texts, AreNoCommand};
ghost use Rattle.cd_driver.specs.Inner.Request.{StandsFor, WritesSize};

/// What words ask for.
#[derive(Clone, Copy)]
pub(crate) enum Request<'a> {
    /// Whether the first type text is within the second.
    Sub(&'a str, &'a str),
    /// The same, with the type declarations of the file of this name, which comes first.
    SubTypes(&'a str, &'a str, &'a str),
    /// Whether the value of a document is in a type, with the type declarations of a file: the
    /// names of the file and of the document, and the type text.
    Member(&'a str, &'a str, &'a str),
    /// Whether the program of the file of this name is well typed.
    Check(&'a str),
    /// What the program of a file comes to on a document, with so many units: the names of the file
    /// and of the document.
    Run(&'a str, &'a str, u64),
    /// The workload of this size.
    Work(u32),
}

/// What the words ask for, where they have a listed form.
pub(crate) fn request_of(words: &[String]) -> Option<Request<'_>>
    ensures { MatchOption result (AreNoCommand (texts words.now))
        (λ request. StandsFor (texts words.now) request) }
{
    match words {
        [name, a] => of_two(name.as_str(), a.as_str()),
        [name, a, b] => of_three(name.as_str(), a.as_str(), b.as_str()),
        [name, a, b, c] => of_four(name.as_str(), a.as_str(), b.as_str(), c.as_str()),
        [name, a, b, c, d] => of_five(
            name.as_str(),
            a.as_str(),
            b.as_str(),
            c.as_str(),
            d.as_str(),
        ),
        _ => None,
    }
}

fn of_two<'a>(name: &str, word: &'a str) -> Option<Request<'a>>
    ensures { MatchOption result (AreNoCommand (name.now ∷ word.now ∷ []))
        (λ request. StandsFor (name.now ∷ word.now ∷ []) request) }
{
    match name {
        "check" => Some(Request::Check(word)),
        "work" if is_size(word) => Some(Request::Work(number(word))),
        _ => None,
    }
}

fn of_three<'a>(name: &str, first: &'a str, second: &'a str) -> Option<Request<'a>>
    ensures { MatchOption result (AreNoCommand (name.now ∷ first.now ∷ second.now ∷ []))
        (λ request. StandsFor (name.now ∷ first.now ∷ second.now ∷ []) request) }
{
    match name {
        "sub" => Some(Request::Sub(first, second)),
        "run" => Some(Request::Run(first, second, 1_000_000_000)),
        _ => None,
    }
}

fn of_four<'a>(name: &str, first: &'a str, second: &'a str, third: &'a str) -> Option<Request<'a>>
    ensures { MatchOption result (AreNoCommand (name.now ∷ first.now ∷ second.now ∷ third.now ∷ []))
        (λ request. StandsFor (name.now ∷ first.now ∷ second.now ∷ third.now ∷ []) request) }
{
    match name {
        "member" => Some(Request::Member(first, second, third)),
        _ => None,
    }
}

fn of_five<'a>(
    name: &str,
    option: &str,
    first: &'a str,
    second: &'a str,
    third: &'a str,
) -> Option<Request<'a>>
    ensures { MatchOption result
        (AreNoCommand (name.now ∷ option.now ∷ first.now ∷ second.now ∷ third.now ∷ []))
        (λ request. StandsFor (name.now ∷ option.now ∷ first.now ∷ second.now ∷ third.now
        ∷ []) request) }
{
    match name {
        "sub" if option == "--types" => Some(Request::SubTypes(first, second, third)),
        "run" if option == "--steps" && is_numeral(first, 18) => {
            Some(Request::Run(second, third, units(first)))
        }
        _ => None,
    }
}

// The number that up to 18 digits write.
#[tactic(auto, using(crate::proofs::Asking::parse_units))]
fn units(word: &str) -> u64
    requires digits { AreDigits word.now }
    requires short { length word.now ≤ 18 }
    ensures { result ≡ decimal_value word.now }
{
    word.parse().unwrap()
}

// 1 to 6 decimal digits that write a number from 1 to 100,000.
fn is_size(word: &str) -> bool
    ensures { IsTrue result ↔ WritesSize word.now }
{
    if !is_numeral(word, 6) {
        return false;
    }
    let size = number(word);
    1 <= size && size <= 100_000
}

// The number that up to 6 digits write.
#[tactic(auto, using(crate::proofs::Asking::parse_number))]
fn number(word: &str) -> u32
    requires digits { AreDigits word.now }
    requires short { length word.now ≤ 6 }
    ensures { result ≡ decimal_value word.now }
{
    word.parse().unwrap()
}

// 1 to `most` decimal digits.
fn is_numeral(word: &str, most: usize) -> bool
    ensures { IsTrue result ↔ (AreDigits word.now × (length word.now ≤ most)) }
{
    if word.is_empty() || word.len() > most {
        return false;
    }
    are_digits(word)
}

fn are_digits(word: &str) -> bool
    ensures { result ≡ list_all is_ascii_digit word.now }
{
    word.bytes().all(|b| b.is_ascii_digit())
}
