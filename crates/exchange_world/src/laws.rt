//! The laws of a connection. Each function does nothing, or calls another law; what it ensures is the
//! law.
ghost use Rattle.exchange_world.specs.Laws.{OpenedIsSound, SoundHasTurns, SoundLendsWithin, SoundNumbersReaders, SoundTakesFrames, StepsKeepSound};
ghost use Rattle.exchange_world.specs.Theorems.{DataHaveCredit, NoFrameIsRefused, PoolsLendWithin, RecordsComeInOrder, SavedPiecesMakeTheCut};

use local_pool::laws::shares_fit;

/// Both ends of a connection agree once it is opened, and each event keeps it so. So each frame is taken
/// where it arrives, and pools lend within their limits, whatever the events.
pub fn connections_stay_sound()
    ensures opened { OpenedIsSound }
    ensures steps { StepsKeepSound }
    ensures frames { NoFrameIsRefused }
    ensures pools { PoolsLendWithin }
{
    shares_fit();
}

/// In a sound connection the first frame on each way is taken where it arrives, and all pools hold no more
/// than the total.
pub fn sound_takes_and_lends()
    ensures takes { SoundTakesFrames }
    ensures lends { SoundLendsWithin }
{
    shares_fit();
}

/// In a sound connection the channel whose turn it is has an item to send, with the credit that it costs. A
/// channel of which a backlog is due to be announced has its number.
pub fn sound_has_turns()
    ensures turns { SoundHasTurns }
    ensures numbers { SoundNumbersReaders }
{}

/// On each channel the records polled are the first of those emitted, whole and in their order, and the bytes
/// polled are the first of those of the records emitted, whatever the events.
pub fn records_come_in_order()
    ensures order { RecordsComeInOrder }
{}

/// Where a front barrier was put on a channel and a save for it was closed, the bytes of the records that were
/// emitted before it are those of the records polled before the save was opened, then what was saved, then
/// what the barrier overtook, whatever the events.
pub fn saved_pieces_make_the_cut()
    ensures cut { SavedPiecesMakeTheCut }
{}

/// On each channel no more data buffers are sent than credit came to the sender, and no more credit came than
/// was announced, whatever the events. Both count the credit of the request.
pub fn data_have_credit()
    ensures credit { DataHaveCredit }
{}
