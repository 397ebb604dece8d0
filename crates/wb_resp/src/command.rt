//! `Command`: the command of a server whose replies are read.

ghost use Rattle.std.specs.Prelude.{◌≡◌};
ghost use Rattle.std.specs.Str.{str_eq_ignore_ascii_case};
ghost use Rattle.wb_resp.specs.Commands.{is_raw_debug, is_raw_memory, is_raw_cluster};
ghost use Rattle.wb_resp.specs.Commands.{is_raw_client, is_raw_latency, is_raw};

/// What of the words of a command says how `redis-cli` prints its replies.
#[derive(Clone, Copy, Debug, Drop)]
pub struct Command<'a> {
    /// The first word, or an empty one
    pub name: &'a str,
    /// The second word, or an empty one
    pub word: &'a str,
    /// The number of words
    pub count: usize,
}

impl<'a> Command<'a> {
    /// Returns the command of these words, of which empty ones do not count.
    pub fn of(words: &[&'a str]) -> Command<'a> {
        let mut command = Command {
            name: "",
            word: "",
            count: 0,
        };
        for word in words {
            command = command.with(*word);
        }
        command
    }

    // Returns the command with one word more, unless that is empty.
    fn with(self, word: &'a str) -> Command<'a> {
        if word.is_empty() {
            return self;
        }
        Command {
            name: if self.count == 0 { word } else { self.name },
            word: if self.count == 1 { word } else { self.word },
            count: self.count.saturating_add(1),
        }
    }

    /// Returns whether `redis-cli` prints the replies of the command as their text stands.
    pub fn is_raw(self) -> bool
        ensures { result ≡ is_raw self.entry.name.now self.entry.word.now self.entry.count }
    {
        is_raw(self.name, self.word, self.count)
    }
}

// Returns whether a word is this one, but for the case of letters.
fn is_word(word: &str, wanted: &str) -> bool
    ensures { result ≡ str_eq_ignore_ascii_case word.now wanted.now }
{
    word.eq_ignore_ascii_case(wanted)
}

// Returns whether the replies of DEBUG with this word after it are printed as their text stands.
fn is_raw_debug(word: &str) -> bool
    ensures { result ≡ is_raw_debug word.now }
{
    is_word(word, "htstats") || is_word(word, "htstats-key") || is_word(word, "client-eviction")
}

// Returns whether the replies of MEMORY with this word after it are printed as their text stands.
fn is_raw_memory(word: &str) -> bool
    ensures { result ≡ is_raw_memory word.now }
{
    is_word(word, "malloc-stats") || is_word(word, "doctor")
}

// Returns whether the replies of CLUSTER with this word after it are printed as their text stands.
fn is_raw_cluster(word: &str, count: usize) -> bool
    ensures { result ≡ is_raw_cluster word.now count }
{
    count == 2 && (is_word(word, "nodes") || is_word(word, "info"))
}

// Returns whether the replies of CLIENT with this word after it are printed as their text stands.
fn is_raw_client(word: &str) -> bool
    ensures { result ≡ is_raw_client word.now }
{
    is_word(word, "list") || is_word(word, "info")
}

// Returns whether the replies of LATENCY with this word after it are printed as their text stands.
fn is_raw_latency(word: &str, count: usize) -> bool
    ensures { result ≡ is_raw_latency word.now count }
{
    count == 3 && is_word(word, "graph") || count == 2 && is_word(word, "doctor")
}

// Returns whether the replies of a command with this name, this word after it and this number of
// words are printed as their text stands.
fn is_raw(name: &str, word: &str, count: usize) -> bool
    ensures { result ≡ is_raw name.now word.now count }
{
    if is_word(name, "info") || is_word(name, "lolwut") {
        return true;
    }
    if is_word(name, "debug") {
        return is_raw_debug(word);
    }
    if is_word(name, "memory") {
        return is_raw_memory(word);
    }
    if is_word(name, "cluster") {
        return is_raw_cluster(word, count);
    }
    if is_word(name, "client") {
        return is_raw_client(word);
    }
    if is_word(name, "latency") {
        return is_raw_latency(word, count);
    }
    is_word(name, "proxy") && is_word(word, "info")
}
