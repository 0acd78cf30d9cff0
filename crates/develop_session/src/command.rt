ghost use Rattle.std.specs.Prelude.{◌≡◌, option_map};
ghost use Rattle.develop_session.specs.Words.{command_of, replay_of, session_of, number_in, number_of, texts};
ghost use Rattle.develop_session.specs.Names.{command, replay, session};

// The names of a `develop` command.
#[derive(Clone, Copy)]
pub(crate) struct Names<'a> {
    pub(crate) script: &'a str,
    pub(crate) source: &'a str,
    pub(crate) out: &'a str,
}

// The `develop` that the words are, if they are one.
pub(crate) fn names_of(words: &[String]) -> Option<Names<'_>>
    ensures { option_map command result ≡ command_of (texts words.now) }
{
    let [word, script, source, out] = words else {
        return None;
    };
    if word.as_str() != "develop" {
        return None;
    }
    Some(Names {
        script: script.as_str(),
        source: source.as_str(),
        out: out.as_str(),
    })
}

// The names of a `stepped` command.
#[derive(Clone, Copy)]
pub(crate) struct ReplayNames<'a> {
    pub(crate) script: &'a str,
    pub(crate) source: &'a str,
    pub(crate) events: &'a str,
}

// The replay that the words are, if they are one.
pub(crate) fn replay_names_of(words: &[String]) -> Option<ReplayNames<'_>>
    ensures { option_map replay result ≡ replay_of (texts words.now) }
{
    let [word, script, source, events] = words else {
        return None;
    };
    if word.as_str() != "stepped" {
        return None;
    }
    Some(ReplayNames {
        script: script.as_str(),
        source: source.as_str(),
        events: events.as_str(),
    })
}

// The names of a `session` command.
#[derive(Clone, Copy)]
pub(crate) struct SessionNames<'a> {
    pub(crate) script: &'a str,
    pub(crate) source: &'a str,
}

// The session that the words are, if they are one.
pub(crate) fn session_names_of(words: &[String]) -> Option<SessionNames<'_>>
    ensures { option_map session result ≡ session_of (texts words.now) }
{
    let [word, script, source] = words else {
        return None;
    };
    if word.as_str() != "session" {
        return None;
    }
    Some(SessionNames {
        script: script.as_str(),
        source: source.as_str(),
    })
}

// The number of 1 to 9 decimal digits that the word is, if it is one.
fn number_in(word: &str) -> Option<u32>
    ensures { result ≡ number_in word.now }
{
    let digits = word.as_bytes();
    if digits.is_empty() || digits.len() > 9 {
        return None;
    }
    let mut number = 0;
    for digit in digits {
        if *digit < 48 || *digit > 57 {
            return None;
        }
        number = number * 10 + u32::from(*digit - 48);
    }
    Some(number)
}

// The number of the `generate` that the words are, if they are one.
pub(crate) fn number_of(words: &[String]) -> Option<u32>
    ensures { result ≡ number_of (texts words.now) }
{
    let [word, digits] = words else {
        return None;
    };
    if word.as_str() != "generate" {
        return None;
    }
    number_in(digits.as_str())
}
