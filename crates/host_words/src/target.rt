ghost use Rattle.std.specs.Prelude.{◌≡◌, Some, None, IfOk, option_map};
ghost use Rattle.std.specs.Result.{IsErrOf};
ghost use Rattle.fb_link.specs.Targets.{place_of};
ghost use Rattle.host_words.specs.Targets.{place_of_text, address_of, image_of, host_of, NamesPlace};

use fb_link::port::Target;
use std::alloc::Global;
use std::fmt;
use std::marker::Model;
use word_rules::error::WordsError;
use word_rules::found::number_in;

/// The target among the words: `image:FILE`, `tcp:HOST` or `tcp:HOST:PORT`, with at least one byte of FILE
/// and HOST and no colon in HOST, and a PORT of 1 to 65535, usually 5554. Contracts see its bytes.
#[derive(Drop)]
pub struct TargetText {
    text: String,
}

impl Model for TargetText {
    ghost use Rattle.std.specs.Prelude.{◌≡◌, ℕ, List, string_bytes, is_some, true};
    ghost use Rattle.std.specs.Coded.{coded_list, coded_ℕ};
    ghost use Rattle.host_words.specs.Targets.{place_of_text};

    ghost Value = { List ℕ };

    ghost coded = { coded_list coded_ℕ };

    ghost view = { λ t. string_bytes t.text };

    ghost invariant = { λ t. is_some (place_of_text (string_bytes t.text)) ≡ true };
}

impl TargetText {
    /// The target that a word is, Usage exactly where it is none.
    pub fn read(alloc: Global, text: &str) -> Result<TargetText, WordsError>
        ensures place { IfOk result (λ t. NamesPlace t (place_of_text text.now)) }
        ensures usage { IsErrOf result WordsError.Usage → place_of_text text.now ≡ None }
    {
        let Some(_) = read_target(text) else {
            return Err(WordsError::Usage);
        };
        let text = String::from_str(alloc, text)?;
        Ok(TargetText { text })
    }

    /// What a port is aimed at.
    pub fn target(&self) -> Target<'_>
        ensures { place_of_text self.now ≡ Some (place_of result) }
    {
        match read_target(self.text.as_str()) {
            Some(target) => target,
            None => unreachable!(),
        }
    }
}

impl fmt::Debug for TargetText {
    fn fmt<W: fmt::Write>(&self, f: &mut fmt::Formatter<W>) -> fmt::Result {
        fmt::Debug::fmt(self.text.as_str(), f)
    }
}

fn read_image(file: &str) -> Option<Target<'_>>
    ensures { option_map place_of result ≡ image_of file.now }
{
    if file.is_empty() {
        None
    } else {
        Some(Target::Image(file))
    }
}

fn read_host(host: &str, port: u16) -> Option<Target<'_>>
    ensures { option_map place_of result ≡ host_of host.now port }
{
    if host.is_empty() {
        None
    } else {
        Some(Target::Tcp(host, port))
    }
}

fn read_address(text: &str) -> Option<Target<'_>>
    ensures { option_map place_of result ≡ address_of text.now }
{
    match text.split_once(':') {
        Some((host, port)) => {
            let port = number_in(1, 65535, port)?;
            read_host(host, port as u16)
        }
        None => read_host(text, 5554),
    }
}

/// The target that a text is, None where it is none.
fn read_target(text: &str) -> Option<Target<'_>>
    ensures { option_map place_of result ≡ place_of_text text.now }
{
    if let Some(file) = text.strip_prefix("image:") {
        return read_image(file);
    }
    let address = text.strip_prefix("tcp:")?;
    read_address(address)
}
