//! The laws of histories. Each function does nothing; what it ensures is the law.
ghost use Rattle.input_channel.specs.Theorems.{ArrivalsArePushed, DataComeInOrder, BarriersComeInOrder, ShutAnnouncesNothing, CreditAgrees, AnnouncedIsTold, ArrivalsAreNumbered, EndIsGivenLast, SavedCompletesPolled, NotPolledIsInTime, JustPolledIsInTime, SavedStays, SavesAreLegal, OpensEmpty, CallsAreLegal, CallsAddEntries, PassesAreKept, EntriesAreLegal, PollTells, SavedTells, OpenSaveIsTold, ReturnFits, OverCreditIsSpent, AcceptedIsAllowed, PolledIsAllowed, AnswerIsGiven, ReaderTellsPushed, GateTellsBuffers, GateTellsSaves, WriterTellsCredit, GivenStays};

/// What every history keeps: what arrived is what was pushed, polls give data in the order of arrival,
/// and barriers too, and nothing is announced once the channel was shut.
pub fn histories_keep_order()
    ensures arrivals { ArrivalsArePushed }
    ensures bytes { DataComeInOrder }
    ensures barriers { BarriersComeInOrder }
    ensures shut { ShutAnnouncesNothing }
{}

/// What a save of every history tells: with what was polled before it, it is the data that came before
/// its barrier, if it was opened before anything behind that was polled. It stays once the barrier has come.
pub fn saves_complete_polls()
    ensures complete { SavedCompletesPolled }
    ensures not_polled { NotPolledIsInTime }
    ensures just_polled { JustPolledIsInTime }
    ensures stay { SavedStays }
{}

/// What every legal history keeps: the account of credit, the numbers of its barriers, that the end
/// is given last, and that its saves are in time.
pub fn legal_histories_agree()
    ensures credit { CreditAgrees }
    ensures told { AnnouncedIsTold }
    ensures numbered { ArrivalsAreNumbered }
    ensures end { EndIsGivenLast }
    ensures saves { SavesAreLegal }
{}

/// What the calls of a channel tell of the history for which it stands.
pub fn channels_stand_for_histories()
    ensures opening { OpensEmpty }
    ensures calls { CallsAreLegal }
    ensures entries { CallsAddEntries }
    ensures passes { PassesAreKept }
    ensures legal { EntriesAreLegal }
    ensures poll { PollTells }
    ensures saved { SavedTells }
    ensures open_save { OpenSaveIsTold }
    ensures fits { ReturnFits }
{}

/// What answers tell of the channel.
pub fn answers_tell()
    ensures accepted { AcceptedIsAllowed }
    ensures polled { PolledIsAllowed }
    ensures given { AnswerIsGiven }
    ensures spent { OverCreditIsSpent }
{}

/// What a pass's own entries tell.
pub fn passes_tell()
    ensures pushed { ReaderTellsPushed }
    ensures buffers { GateTellsBuffers }
    ensures saves { GateTellsSaves }
    ensures credit { WriterTellsCredit }
    ensures given { GivenStays }
{}
