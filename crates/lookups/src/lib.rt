// What a viewer draws of the live tasks: definitions (specs/). The code is in `strips` and `busy`.
#![tactic(auto)]
