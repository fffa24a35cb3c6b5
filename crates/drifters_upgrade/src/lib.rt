// Changing a filter over between one alpha and an alpha for each sensor.
#![tactic(auto, unfolding(crate::specs::Upgrade::upgrade, crate::specs::Upgrade::upgraded, crate::specs::Upgrade::downgrade, crate::specs::Upgrade::downgraded))]

pub mod upgrade;
