/// A call of the host.
#[derive(Clone, Copy)]
pub enum Call<'a> {
    Connect,
    GetVar(&'a [u8]),
    Download(u32),
    Write(&'a [u8]),
    /// A frame of data over the port itself.
    Apart(&'a [u8]),
    Finish,
    HangUp,
    Abandon,
    /// A connection, two questions and a download at once.
    Load(&'a [u8]),
}

/// The call that a word tells.
pub fn call_of(word: &str) -> Option<Call<'_>> {
    match word.split_once(":") {
        Some((kind, text)) => call_with(kind, text),
        None => call_alone(word),
    }
}

fn call_with<'a>(kind: &str, text: &'a str) -> Option<Call<'a>> {
    match kind {
        "getvar" => Some(Call::GetVar(text.as_bytes())),
        "download" => Some(Call::Download(text.parse().ok()?)),
        "write" => Some(Call::Write(text.as_bytes())),
        "apart" => Some(Call::Apart(text.as_bytes())),
        "load" => Some(Call::Load(text.as_bytes())),
        _ => None,
    }
}

fn call_alone(word: &str) -> Option<Call<'static>> {
    match word {
        "connect" => Some(Call::Connect),
        "finish" => Some(Call::Finish),
        "hang-up" => Some(Call::HangUp),
        "abandon" => Some(Call::Abandon),
        _ => None,
    }
}
