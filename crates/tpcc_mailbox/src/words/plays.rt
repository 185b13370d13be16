//! The kinds of step on the table, and what each tells the seat that makes it.
ghost use Rattle.tpcc_mailbox.specs.Internal.Steps.{PostStep, TakeStep, AnswerStep, CollectStep, CloseStep, ReadStep, FirstCollectStep, EnterStep, ReturnStep};
ghost use Rattle.tpcc_mailbox.specs.Internal.Rule.{half, other_half, opener_after, next_client, ended, first_server, gathered, spent};

use crate::letters::answers::Answers;
use crate::words::rule::{Mail, View};
use atomic_table::{Join, Play, Split};

/// A client posts its letter.
pub(crate) struct Posting;

impl<J, A> Play<Option<Mail<J, A>>, View<J>> for Posting {
    ghost then = { PostStep };
}

/// A server takes a posted letter.
pub(crate) struct Taking;

impl<J, A> Play<Option<Mail<J, A>>, View<J>> for Taking {
    ghost then = { TakeStep };
}

/// A server answers the letter in its hand.
pub(crate) struct Answering;

impl<J, A> Play<Option<Mail<J, A>>, View<J>> for Answering {
    ghost then = { AnswerStep };
}

/// A client collects the answer of its letter.
pub(crate) struct Collecting;

impl<J, A: Answers<J>> Play<Option<Mail<J, A>>, View<J>> for Collecting {
    ghost then = { CollectStep (λ j a. A.fits (A.label j) a) };
}

/// A server raises the closed flag.
pub(crate) struct Closing;

impl<J, A> Play<Option<Mail<J, A>>, View<J>> for Closing {
    ghost then = { CloseStep };
}

/// A client or a server reads the closed flag.
pub(crate) struct Reading;

impl<J, A> Play<Option<Mail<J, A>>, View<J>> for Reading {
    ghost then = { ReadStep };
}

/// A new client fetches the empty slot of its mailbox.
pub(crate) struct FirstCollecting;

impl<J, A> Play<Option<Mail<J, A>>, View<J>> for FirstCollecting {
    ghost then = { FirstCollectStep };
}

/// Cuts a server's right in two.
pub(crate) struct SplittingServer;

impl<J> Split<View<J>> for SplittingServer {
    ghost left = { half };

    ghost right = { other_half };
}

/// Makes the client of the next mailbox.
pub(crate) struct MakingClient;

impl<J> Split<View<J>> for MakingClient {
    ghost left = { opener_after };

    ghost right = { next_client };
}

/// Makes the first server.
pub(crate) struct MakingServer;

impl<J> Split<View<J>> for MakingServer {
    ghost left = { ended };

    ghost right = { first_server };
}

/// Makes the seat that all others are joined into.
pub(crate) struct Entering;

impl<J, A> Play<Option<Mail<J, A>>, View<J>> for Entering {
    ghost then = { EnterStep };
}

/// Gives back the slot of a seat that is about to be joined.
pub(crate) struct Returning;

impl<J, A> Play<Option<Mail<J, A>>, View<J>> for Returning {
    ghost then = { ReturnStep };
}

/// Takes in what another seat knows.
pub(crate) struct Gathering;

impl<J> Join<View<J>> for Gathering {
    ghost both = { gathered };

    ghost spent = { spent };
}
