// Why bytes give no frame.
use thiserror::Error;

/// Why bytes begin with no frame.
#[derive(Clone, Copy, Debug, PartialEq, Eq, Error)]
pub enum FrameFault {
    /// The bytes end before it can be told. More of them may mend it, and no other fault.
    #[error("the frame is not whole")]
    NeedMore,
    /// No frame is as long as this.
    #[error("no frame has {len} bytes")]
    BadLength { len: u32 },
    /// Another number stands where the magic number should.
    #[error("the magic number is {got:#010x}")]
    BadMagic { got: u32 },
    /// No kind has this id.
    #[error("no frame has the id {id}")]
    BadId { id: u8 },
    /// The length is not one of the kind with this id, or a number of the body is out of its range.
    #[error("the body of a frame with the id {id} is wrong")]
    BadBody { id: u8 },
}
