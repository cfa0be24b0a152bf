// The channel between runtimes: tasks that send and receive.
mod closes;
mod receives;
