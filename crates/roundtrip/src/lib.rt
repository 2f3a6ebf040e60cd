// What is read and written again is the same octets; what was written reads back as the same items. Theorems alone.
#![tactic(auto)]
