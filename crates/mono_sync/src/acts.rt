// Calls on the shared value as futures: each is made in one turn.
//
// The functions here return a future, for forms such as `then`; the functions of the same names elsewhere take a context.
mod changes;
mod deliveries;
mod keyed_changes;
mod keyed_deliveries;
mod keyed_many_messages;
mod keyed_many_permits;
mod keyed_messages;
mod keyed_modifying;
mod keyed_notices;
mod keyed_permits;
mod making;
mod many_messages;
mod many_permits;
mod messages;
mod modifying;
mod notices;
mod owns;
mod performs;
mod permits;
mod tallies;

pub use changes::{CloseValueCall, SendValueCall, close_value, send_value};
pub use deliveries::{CloseOnceCall, SendOnceCall, close_once, send_once};
pub use keyed_changes::{CloseValueAtCall, SendValueAtCall, close_value_at, send_value_at};
pub use keyed_deliveries::{CloseOnceAtCall, SendOnceAtCall, close_once_at, send_once_at};
pub use keyed_many_messages::{TryRecvManyAtCall, try_recv_many_at};
pub use keyed_many_permits::{
    AddPermitsAtCall, ForgetPermitsAtCall, TryAcquireManyAtCall, add_permits_at, forget_permits_at,
    try_acquire_many_at,
};
pub use keyed_messages::{
    CloseChannelAtCall, TryRecvAtCall, TrySendAtCall, close_channel_at, try_recv_at, try_send_at,
};
pub use keyed_modifying::{
    ModifyValueAtCall, ModifyValueIfAtCall, modify_value_at, modify_value_if_at,
};
pub use keyed_notices::{NotifyOneAtCall, NotifyWaitersAtCall, notify_one_at, notify_waiters_at};
pub use keyed_permits::{
    CloseSemaphoreAtCall, ReleaseAtCall, TryAcquireAtCall, close_semaphore_at, release_at,
    try_acquire_at,
};
pub use making::{MakeCall, RemoveCall, make, remove};
pub use many_messages::{TryRecvManyCall, try_recv_many};
pub use many_permits::{
    AddPermitsCall, ForgetPermitsCall, TryAcquireManyCall, add_permits, forget_permits,
    try_acquire_many,
};
pub use messages::{CloseChannelCall, TryRecvCall, TrySendCall, close_channel, try_recv, try_send};
pub use modifying::{ModifyValueCall, ModifyValueIfCall, modify_value, modify_value_if};
pub use notices::{NotifyOneCall, NotifyWaitersCall, notify_one, notify_waiters};
pub use owns::{ChangeCall, change};
pub use performs::{Act, AtOnce, perform};
pub use permits::{
    CloseSemaphoreCall, ReleaseCall, TryAcquireCall, close_semaphore, release, try_acquire,
};
pub use tallies::{CloseTalliedCall, close_tallied};
