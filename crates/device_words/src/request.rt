use word_rules::text::Text;

/// What the words of fbdevice ask for. A file's name has at least one byte, and port and connections are
/// 1 to 65535.
#[derive(Debug, Drop)]
pub enum DeviceWords {
    /// An image file is made of the device of a layout.
    Make {
        layout: Text,
        file: Text,
        unlocked: bool,
    },
    /// The device of an image file is shown.
    Show(Text),
    /// The device of an image file is unlocked.
    Unlock(Text),
    /// The device of an image file is served at a port, to this many connections.
    Serve {
        file: Text,
        port: u16,
        connections: u32,
    },
}
