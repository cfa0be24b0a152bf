// Laws of what arrives.
ghost use Rattle.mono_channel.specs.Beginnings.{ArrivedInterleaves, AloneArrives, PartsInterleave, BeginningsInterleave};
ghost use Rattle.mono_channel.specs.Weights.{InterleavingWeighs};

/// Shows that what arrived interleaves what the settled senders sent, if the receiver has all shares.
pub fn arrived_interleaves<T>()
    ensures { ArrivedInterleaves T }
{}

/// Shows that an interleaving of one sender's messages is those messages.
pub fn alone_arrives<T>()
    ensures { AloneArrives T }
{}

/// Shows that a beginning of an interleaving interleaves a beginning of what each sender sent.
pub fn beginnings_interleave<T>()
    ensures { BeginningsInterleave T }
{}

/// Shows that the parts of the messages interleave as the messages do.
pub fn parts_interleave<T, U>()
    ensures { PartsInterleave T U }
{}

/// Shows that an interleaving weighs what its parts do, however the elements are weighed.
pub fn interleaving_weighs<T>()
    ensures { InterleavingWeighs T }
{}
