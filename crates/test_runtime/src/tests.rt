mod chains;
mod events;
mod histories;
mod locks;
mod queues;
mod shards;
mod stealing;
