ghost use Rattle.std.specs.Prelude.{◌≡◌};
ghost use Rattle.dev_model.specs.RefusalTexts.{text_of};

/// Why a device refuses a command.
#[derive(Clone, Copy, Debug, PartialEq, Eq)]
pub enum Refusal {
    Locked,
    AlreadyLocked,
    UserspaceOnly,
    NothingDownloaded,
    DownloadTooLarge,
    NoSuchPartition,
    NameTaken,
    TooManyPartitions,
    NoSuchGroup,
    NotEnoughSpace,
    GroupFull,
    BadImage,
    ImageTooLarge,
    BadTable,
    NoSlots,
}

impl Refusal {
    /// The text behind FAIL.
    pub fn text(self) -> &'static [u8]
        ensures { result.now ≡ text_of self }
    {
        match self {
            Refusal::Locked => b"locked".as_slice(),
            Refusal::AlreadyLocked => b"already locked".as_slice(),
            Refusal::UserspaceOnly => b"userspace only".as_slice(),
            Refusal::NothingDownloaded => b"nothing downloaded".as_slice(),
            Refusal::DownloadTooLarge => b"download too large".as_slice(),
            Refusal::NoSuchPartition => b"no such partition".as_slice(),
            Refusal::NameTaken => b"name taken".as_slice(),
            Refusal::TooManyPartitions => b"too many partitions".as_slice(),
            Refusal::NoSuchGroup => b"no such group".as_slice(),
            Refusal::NotEnoughSpace => b"not enough space".as_slice(),
            Refusal::GroupFull => b"group full".as_slice(),
            Refusal::BadImage => b"bad image".as_slice(),
            Refusal::ImageTooLarge => b"image too large".as_slice(),
            Refusal::BadTable => b"bad table".as_slice(),
            Refusal::NoSlots => b"no slots".as_slice(),
        }
    }
}
