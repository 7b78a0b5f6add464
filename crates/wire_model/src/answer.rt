use dev_model::cells::ByteList;
use dev_model::device::Dev;

/// What a device answers to a command: the frames of its replies, the device after, what is then
/// loaded, how many bytes of data are due, and whether the connection closes.
#[derive(Debug, Drop)]
pub struct Answer {
    pub out: ByteList,
    pub device: Dev,
    pub loaded: Option<ByteList>,
    pub due: Option<u32>,
    pub closed: bool,
}
